// The file of a closed index: writing it, loading it, and what is proved of the two together. Ports `serialize_to` and `deserialize` of
// spacetime_index.rs.
//
//   lib   proofs/Answering                2 and 4; the rest stands in file_write and file_load
//         specs/Law                       the theorems, each the contract of a function without work
//         proofs/Closed, Numbering, Touched, Alike, Saving    written and loaded: the same answers
//         proofs/Reached                  of an index that calls have reached
//         proofs/Taking, Emptying         what the loader takes; files that it refuses

#![tactic(auto)]

ghost use Rattle.layout.specs.Tables.{tables, held};
ghost use Rattle.layout.specs.Files.{WrittenBy, LoadedBy};
ghost use Rattle.refusals.specs.Numbers.{answer_by};
ghost use Rattle.spacetime_file.specs.Law.{SavedAndLoaded, LoadedAndWritten, TakenAndNotRefused, EmptyFiles};

use layout::Tables;
use refusals::Refusal;
use segment_table::lent::Closed;

// Writes the file of a finished or loaded index from the slice's start on.
pub fn serialize_to(lent: Tables, out: &mut [u8]) -> Result<u64, Refusal>
    ensures { WrittenBy (held lent.entry)
        out.old out.new (answer_by (λ n. n) result) }
{
    index_test::test(lent).closed()?;
    let closed = Closed {
        blocks: lent.blocks,
        nodes: lent.nodes,
        entries: lent.entries,
    };
    file_write::write_closed(&closed, lent.store, out)
}

// Loads the tree of a kind whose file starts at a position, and gives the next one. The tables stand one by one, as in `file_load`.
pub fn deserialize(
    pieces: &mut [u64],
    blocks: &mut [u64],
    store: &mut [u8],
    nodes: &mut [u64],
    entries: &mut [u64],
    file: &[u8],
    at: usize,
) -> Result<usize, Refusal>
    ensures { LoadedBy file.now at (tables pieces.old blocks.old store.old nodes.old entries.old)
        (tables pieces.new blocks.new store.new nodes.new entries.new) (answer_by (λ n. n) result) }
{
    file_load::load(pieces, blocks, store, nodes, entries, file, at)
}

// Each kind's part of what was written, at its position, is loaded and answers every find, touching, next, last, block and read of cells as the index does for
// that kind, and shows its history; the positions follow one another.
#[tactic(auto, using(crate::proofs::Reached::saved_and_loaded))]
pub fn saved_and_loaded()
    ensures { SavedAndLoaded }
{}

// Writing a loaded index gives the bytes read.
#[tactic(auto, using(crate::proofs::Taking::loaded_and_written))]
pub fn loaded_and_written()
    ensures { LoadedAndWritten }
{}

// Whatever the loader takes is what the parser says, and is well formed if the piece table holds its head; what the parser and rules 20 to 24 accept is not
// refused.
#[tactic(auto, using(crate::proofs::Taking::taken_and_not_refused))]
pub fn taken_and_not_refused()
    ensures { TakenAndNotRefused }
{}

// A kind without blocks writes nothing, and one whose blocks all have no life cannot be loaded again.
#[tactic(auto, using(crate::proofs::Emptying::empty_files))]
pub fn empty_files()
    ensures { EmptyFiles }
{}
