//! Laws of the manual's syntax and of dumps, each the contract of an empty function.

ghost use Rattle.dma_manual.specs.Laws.{CommentsStandInColumns, DumpsAreReadOneWay, ListingsAssemble, TextsAssemble};

/// Law: the text of each instruction assembles to the instruction's bytes.
#[tactic(auto, using(crate::proofs::OneLine::texts_assemble))]
pub fn texts_assemble()
    ensures { TextsAssemble }
{}

/// Law: what `disassemble` appends to `out` for a program assembles to the bytes that it shows, if they are at most
/// 8,192. It shows the bytes up to DMAEND, or all without one, or those before the first that are no instruction.
pub fn listings_assemble()
    ensures { ListingsAssemble }
{}

/// Law: the comments of a listing begin in the same column.
#[tactic(auto, using(crate::proofs::Columns::comments_stand_in_columns))]
pub fn comments_stand_in_columns()
    ensures { CommentsStandInColumns }
{}

/// Law: whatever bytes a text is a dump of, in whichever form, `read_pasted` with `Spelling::Dump` returns these bytes,
/// or refuses the text.
pub fn dumps_are_read_one_way()
    ensures { DumpsAreReadOneWay }
{}
