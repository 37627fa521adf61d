ghost use Rattle.std.specs.Prelude.{◌≡◌, [], slice_index_or, slice_set};
ghost use Rattle.step_state.specs.Values.{cell, cleared, place_of};

use step_state::Table;

/// The place of the cell with this number; 0 for a negative one, which is no cell's.
pub fn place_of(index: i32) -> u32
    ensures { result ≡ place_of index }
{
    if index < 0 { 0 } else { index as u32 }
}

/// The cell with this number, if there is one.
#[tactic(auto, using(crate::proofs::CellLemmas::cell_low, crate::proofs::CellLemmas::cell_high))]
fn cell<T: Copy + Drop>(cells: &Table<T>, index: i32) -> Option<T>
    ensures { result ≡ cell cells.now index }
{
    if index < 0 {
        return None;
    }
    match cells.get(index as usize) {
        None => None,
        Some(value) => Some(*value),
    }
}

/// The cell of a variable at this index, if the variable has it.
#[tactic(auto, using(crate::proofs::CellLemmas::cell_within, crate::proofs::CellLemmas::cell_past))]
pub fn read_cell<T: Copy + Drop>(
    variables: &Table<Table<T>>,
    variable: u32,
    index: i32,
) -> Option<T>
    ensures { result ≡ cell (slice_index_or variables.now variable []) index }
{
    match variables.get(variable as usize) {
        None => None,
        Some(cells) => cell(cells, index),
    }
}

/// Puts a value into the cell of a variable in this place, if the variable has it.
pub fn set_cell<T: Copy + Drop>(
    variables: &mut Table<Table<T>>,
    variable: u32,
    place: u32,
    value: T,
)
    ensures { variables.new ≡ slice_set variables.old variable (slice_set (slice_index_or variables.old variable []) place value) }
{
    if (variable as usize) < variables.len() {
        variables
            .at_mut(variable as usize)
            .set(place as usize, value);
    }
}

/// Puts this value into all cells.
#[tactic(auto, using(crate::proofs::CellLemmas::cleared_more, crate::proofs::CellLemmas::cleared_all))]
fn clear<T: Copy + Drop>(cells: &mut Table<T>, nought: T)
    ensures { cells.new ≡ cleared nought cells.old }
{
    let len = cells.len();
    for place in 0..len {
        cells.set(place, nought);
    }
}

/// Puts this value into all cells of a variable.
pub fn clear_cells<T: Copy + Drop>(variables: &mut Table<Table<T>>, variable: u32, nought: T)
    ensures { variables.new ≡ slice_set variables.old variable (cleared nought (slice_index_or variables.old variable [])) }
{
    if (variable as usize) < variables.len() {
        clear(variables.at_mut(variable as usize), nought);
    }
}
