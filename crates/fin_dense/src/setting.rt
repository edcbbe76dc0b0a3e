//! What a program is run over.
use fin_ast::Checked;
use fin_tensor::Storage;

/// A program with its extents and inputs, and which input is each header's.
#[derive(Drop)]
pub struct Setting<'a> {
    pub checked: &'a Checked,
    pub inputs: &'a [Storage],
    pub numbers: Vec<Option<usize>>,
}
