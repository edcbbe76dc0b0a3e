//! Breaches of rules.
ghost use Rattle.std.specs.Prelude.{◌≡◌};
ghost use Rattle.fin_ast.specs.Sizes.{broken as broken_of};

use fin_base::{Refusal, Rule};

/// The rule is broken on that line, where it is broken.
pub fn broken(is_broken: bool, rule: Rule, line: u32) -> Option<Refusal>
    ensures { result ≡ broken_of is_broken rule line }
{
    if is_broken {
        Some(Refusal { rule, line })
    } else {
        None
    }
}
