// All nodes of the file, root first, left before right: no call for a child, but a count of the subtrees that are still to come.
ghost use Rattle.history.specs.File.{read_root};
ghost use Rattle.fields.specs.Fields.{Moves};
ghost use Rattle.file_scan.specs.Rows.{answer_of};
ghost use Rattle.file_scan.specs.Counts.{nodes_from};

use crate::rows;
use crate::rows::NodeRow;
use fields::Reader;
use refusals::Refusal;

// How many nodes and entries there are.
#[derive(Clone, Copy)]
pub struct Nodes {
    pub nodes: u64,
    pub entries: u64,
}

// Passes a tree. No `for`: each node that is read says whether two more are awaited.
pub fn pass(reader: &mut Reader<'_>) -> Result<Nodes, Refusal>
    ensures { Moves (λ file at. nodes_from (read_root file at)) (answer_of (λ n. n) result) reader.old reader.new }
{
    let mut awaited: u64 = 1;
    let mut nodes: u64 = 0;
    let mut entries: u64 = 0;
    while 0 < awaited {
        match rows::node(reader)? {
            NodeRow::Present { count, .. } => {
                nodes += 1;
                entries += count;
                awaited += 1;
            }
            NodeRow::Absent => {
                awaited -= 1;
            }
        }
    }
    Ok(Nodes { nodes, entries })
}
