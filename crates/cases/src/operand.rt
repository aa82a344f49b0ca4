use crate::call::Name;
use crate::word::Word;
use classes::class::Class;
use vocabulary::io_kind::IoKind;

// What stands behind the first word of a line.
#[derive(Clone, Copy)]
pub enum Operand {
    Word(Word),
    Name(Name),
    Number(u32),
    Class(Class),
    Io(IoKind),
}
