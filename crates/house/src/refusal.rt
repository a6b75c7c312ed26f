use book::Fault;

/// Why a text is not read as a book: a fault, and the number of the line that has it, from 1; 0 for the text as a whole.
#[derive(Clone, Copy, PartialEq, Eq, Debug)]
pub struct Refusal {
    pub fault: Fault,
    // A number for the whole text too: a refusal is printed with line 0 then.
    pub line: usize,
}
