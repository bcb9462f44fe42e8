// Why a line of a script is not done. What a refusal prints is the answer to the line: of the library's own, the number and what comes with it.
use baked::fault::FileFault;
use bintree::fault::OrderFault;
use mesh::fault::{ListFault, MergeFault, SplitFault};
use std::alloc::AllocError;
use terrain::fault::{CarveFault, PointFault};
use thiserror::Error;

#[derive(Clone, Copy, Debug, Error)]
pub enum Refusal<'a> {
    #[error("line {0}: not understood")]
    NotUnderstood(usize),
    #[error("no memory")]
    NoMemory(#[from(alloc)] AllocError),
    #[error("cannot read {0}")]
    Unreadable(&'a str),
    #[error(transparent)]
    Order(#[from] OrderFault),
    #[error(transparent)]
    Point(#[from] PointFault),
    #[error(transparent)]
    Carve(#[from] CarveFault),
    #[error(transparent)]
    File(#[from] FileFault),
    #[error(transparent)]
    Split(#[from] SplitFault),
    #[error(transparent)]
    Merge(#[from] MergeFault),
    #[error(transparent)]
    List(#[from] ListFault),
}
