// The cells of the model at one array term (01, Printed lines), in order of their indices.
ghost use Rattle.std.specs.Prelude.{List, ℕ};
ghost use Rattle.front.specs.Fronted.{Judged, JudgedOn};
ghost use Rattle.checker.specs.Reports.{ListAllows};

use front::{Ruling, judge};
use model::{Cells, list_cells};
use paper::{Reason, Refusal};
use terms::Tables;

// The answer of a listing, once there is a ruling: 12, 11, then 10.
fn list(
    tables: &Tables,
    ruling: Ruling,
    array: u64,
    indices: &mut [u64],
    contents: &mut [u64],
) -> Result<usize, Refusal>
    requires { JudgedOn tables.now ruling }
    ensures { (bytes : List ℕ) → Judged bytes tables.now ruling → ListAllows bytes array indices.old indices.new contents.old contents.new result }
{
    if let Some(_) = ruling.found {
        return Err(Refusal::whole(Reason::OtherVerdict));
    }
    if tables.counts.arrays as u64 <= array {
        return Err(Refusal::whole(Reason::NoCell));
    }
    let mut listed = Cells::EMPTY;
    list_cells(tables, array as usize, &mut listed);
    let cells = listed.as_slice();
    if indices.len() < cells.len() || contents.len() < cells.len() {
        return Err(Refusal::whole(Reason::NoRoom));
    }
    for (k, cell) in cells.iter().enumerate() {
        indices[k] = cell.index;
        contents[k] = cell.value;
    }
    Ok(cells.len())
}

// Lists the cells of the model at an array term: their indices and what stands there, over the first places of two runs, and answers how many
// they are. 302 places always suffice. The runs stay two, since `ListAllows` is promised of two.
pub fn cells(
    query: &[u8],
    array: u64,
    indices: &mut [u64],
    contents: &mut [u64],
) -> Result<usize, Refusal>
    ensures { ListAllows query.now array indices.old indices.new contents.old contents.new result }
{
    let mut tables = Tables::EMPTY;
    let ruling = judge(query, &mut tables)?;
    list(&tables, ruling, array, indices, contents)
}
