//! The tensors that a code declares.
ghost use Rattle.std.specs.Prelude.{◌≡◌, map};
ghost use Rattle.fin_ir.specs.Declares.{declares as declares_of, some_of};

use fin_ir::Code;

/// Whether a declaration in the code names the tensor.
#[cycle(declared)]
pub fn declares(code: &Code, tensor: usize) -> bool
    ensures { result ≡ declares_of code.now tensor }
{
    match code {
        Code::Skip => false,
        Code::Seq(all) => some_declares(all.as_slice(), tensor),
        Code::Assign { local: _, value: _ } => false,
        Code::When { test: _, body } => declares(body.get(), tensor),
        Code::StepLoop {
            var: _,
            until: _,
            lo: _,
            hi: _,
            stop: _,
            body,
        } => declares(body.get(), tensor),
        Code::ForLoop {
            var: _,
            lo: _,
            hi: _,
            body,
        } => declares(body.get(), tensor),
        Code::ParLoop {
            from: _,
            to: _,
            lo: _,
            hi: _,
            ways: _,
            body,
        } => declares(body.get(), tensor),
        Code::Update {
            tensor: _,
            at: _,
            by: _,
            value: _,
        } => false,
        Code::Declare { tensor: declared } => *declared as usize == tensor,
        Code::Freeze { tensor: _ } => false,
        Code::Thaw { tensor: _ } => false,
        Code::Charge(_) => false,
    }
}

#[cycle(declared)]
fn some_declares(all: &[Code], tensor: usize) -> bool
    ensures { result ≡ some_of (map declares_of all.now) tensor }
{
    for code in all {
        if declares(code, tensor) {
            return true;
        }
    }
    false
}
