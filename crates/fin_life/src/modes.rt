//! The modes of all tensors at a place.
ghost use Rattle.std.specs.Prelude.{◌≡◌, ◌≤◌, length, if◌then◌else◌};
ghost use Rattle.fin_ast.specs.Life as life;
ghost use Rattle.fin_ast.specs.Kinds as kinds;
ghost use Rattle.fin_ast.specs.Modes.{is_input_at, mode_at_start};
ghost use Rattle.fin_life.specs.Passage.{turned};
ghost use Rattle.fin_life.specs.Table.{mode_in};

use fin_ast::{Header, Kind, Mode};

/// A mode for each number of a tensor.
#[derive(Clone, Copy, Debug)]
pub struct Modes {
    of: [Mode; 256],
}

impl Modes {
    /// Every tensor is undeclared.
    fn undeclared() -> Modes
        ensures { mode_in result ≡ (λ t. Mode.Undeclared) }
    {
        Modes {
            of: [Mode::Undeclared; 256],
        }
    }

    /// The modes at the start of a program: inputs are in read mode.
    pub fn at_start(headers: &[Header]) -> Modes
        requires { length headers.now ≤ 64 }
        ensures { mode_in result ≡ mode_at_start headers.now }
    {
        let mut modes = Modes::undeclared();
        for tensor in 0..headers.len() {
            modes.start(&headers[tensor], tensor as u8);
        }
        modes
    }

    /// Leads a tensor with that header to its first mode.
    fn start(&mut self, header: &Header, tensor: u8)
        ensures { let before = mode_in self.old in
            mode_in self.new ≡ (if kinds.is_input header.now.kind then turned before tensor Mode.Read else before) }
    {
        if header.kind == Kind::Input {
            self.lead(tensor, Mode::Read);
        }
    }

    /// The mode of a tensor.
    pub fn at(&self, tensor: u8) -> Mode
        ensures { result ≡ mode_in self.now tensor }
    {
        self.of[usize::from(tensor)]
    }

    /// Leads a tensor to a mode.
    pub fn lead(&mut self, tensor: u8, mode: Mode)
        ensures { mode_in self.new ≡ turned (mode_in self.old) tensor mode }
    {
        self.of[usize::from(tensor)] = mode;
    }
}

/// Whether a tensor is an input.
pub fn is_input(headers: &[Header], tensor: u8) -> bool
    ensures { result ≡ is_input_at headers.now tensor }
{
    match headers.get(usize::from(tensor)) {
        Some(header) => header.kind == Kind::Input,
        None => false,
    }
}

pub fn is_update(mode: Mode) -> bool
    ensures { result ≡ life.is_update mode }
{
    match mode {
        Mode::Update => true,
        Mode::Undeclared | Mode::Read => false,
    }
}

pub fn is_read(mode: Mode) -> bool
    ensures { result ≡ life.is_read mode }
{
    match mode {
        Mode::Read => true,
        Mode::Undeclared | Mode::Update => false,
    }
}

pub fn is_declared(mode: Mode) -> bool
    ensures { result ≡ life.is_declared mode }
{
    match mode {
        Mode::Undeclared => false,
        Mode::Update | Mode::Read => true,
    }
}

pub fn is_changed(begin: Mode, now: Mode) -> bool
    ensures { result ≡ life.is_changed begin now }
{
    match begin {
        Mode::Undeclared => false,
        Mode::Update => !is_update(now),
        Mode::Read => !is_read(now),
    }
}
