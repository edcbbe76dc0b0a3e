//! What names do in the forms of the grammar.
ghost use Rattle.std.specs.Prelude.{◌≡◌};
ghost use Rattle.fin_parse.specs.Roles as spec;

use crate::grammar::Form;

/// What a name does in a form.
#[derive(Clone, Copy, Debug, PartialEq, Eq)]
pub enum Role {
    /// A loop binds it.
    LoopName,
    /// A let binds it.
    LetName,
    /// A tensor that is declared or updated.
    Changed,
    /// A tensor that is frozen or thawed.
    Turned,
    /// A variable or a tensor that is read.
    Operand,
    /// A variable of an index.
    IndexName,
    /// The first variable of a `~` index.
    LooseName,
    /// The second variable of a `~` index.
    AddedName,
    /// The form has no name of its own.
    Other,
}

/// How the indices of a form are counted.
#[derive(Clone, Copy, Debug, PartialEq, Eq)]
pub enum Counting {
    /// It has none.
    Never,
    /// Those of its second part.
    Second,
    /// It is one.
    Single,
    /// Those of all parts.
    Sum,
}

pub(crate) fn role_of(form: Form) -> Role
    ensures value { result ≡ spec.role_of form }
{
    match form {
        Form::Turns => Role::LoopName,
        Form::Let => Role::LetName,
        Form::Named => Role::Changed,
        Form::Turn => Role::Turned,
        Form::NamedOperand => Role::Operand,
        Form::Shifted => Role::IndexName,
        Form::LooseNamed => Role::LooseName,
        Form::AddedName => Role::AddedName,
        _ => Role::Other,
    }
}

/// Where the name of a form stands.
pub(crate) fn name_place(role: Role) -> usize
    ensures value { result ≡ spec.name_place role }
{
    match role {
        Role::LetName => 1,
        Role::Turned => 1,
        _ => 0,
    }
}

/// The place from which the parts of a form stand in its own scope.
pub(crate) fn inner_from(role: Role) -> usize
    ensures value { result ≡ spec.inner_from role }
{
    match role {
        Role::LetName => 4,
        _ => 0,
    }
}

pub(crate) fn counting_of(form: Form) -> Counting
    ensures value { result ≡ spec.counting_of form }
{
    match form {
        Form::Declaration => Counting::Never,
        Form::Update => Counting::Second,
        Form::Constant => Counting::Single,
        Form::Shifted => Counting::Single,
        Form::BareIndex => Counting::Single,
        Form::ProtocolIndex => Counting::Single,
        _ => Counting::Sum,
    }
}
