// An image with the facts of its words, while these are carried on. The steps stand beside the method, since what they
// keep names the type.
ghost use Rattle.facts.specs.Progress.{Level};

#[derive(Drop)]
pub(crate) struct Flow<'i, 't, 'd, F> {
    pub(crate) image: &'i [u32],
    pub(crate) table: &'t mut [F],
    // Where a fact still has to be carried on: beside the table, which is the caller's.
    pub(crate) dirty: &'d mut [bool],
    pub(crate) ghost level: { Level image.now table.now dirty.now },
}
