// The tables of what becomes of accessors, primitives and views.
ghost use Rattle.std.specs.Prelude.{◌≡◌, ◌++◌, is_some, map, filter_map, option_copied, option_to_list, List, IfOk, OnOk};
ghost use Rattle.std.specs.List.{count_by};
ghost use Rattle.gp_sameness.specs.Moved.{Moved};
ghost use Rattle.gp_pack.specs.MoveTables.{AreTables};
ghost use Rattle.gp_pack.specs.Making.{IsMovedAs};
ghost use Rattle.gp_pack.specs.TableParts.{ArePlaces, view_of_part, view_number, move_with, moves_of, value_at, group_at, component_for, list_made};

use crate::made::MadePart;
use crate::making::{MadeGroups, number_of};
use crate::mesh_tables::mesh_lists;
use crate::moving::MoveTables;
use gp_asset::Asset;
use gp_host::NoMemory;
use gp_moves::{
    AccessorMove, GroupEdit, MadeList, MadeView, Part, first_values, group_entries, placed_entries,
    written_accessors,
};
use gp_rules::StreamMode;
use std::alloc::Global;

// 5123, an unsigned short, and 5125, an unsigned int.
const SHORT: u32 = 5123;

const INT: u32 = 5125;

// Of each accessor the group that has it, by its place, and the place of the view that is made for it.
#[derive(Drop)]
struct Places {
    columns: Vec<Option<u32>>,
    lists: Vec<Option<u32>>,
    views: Vec<Option<u32>>,
    // How many views stay before those that are made.
    kept: usize,
    // How many views are made.
    made: usize,
}

// The tables of an asset where these groups move and views get these numbers.
pub(crate) fn move_tables(
    alloc: Global,
    asset: &Asset<'_>,
    made: &MadeGroups,
    numbers: &[Option<u32>],
) -> Result<MoveTables, NoMemory>
    ensures { IfOk result (λ t. (moved : List Moved) → IsMovedAs asset.now moved made.now numbers.now → AreTables moved asset.now t) }
{
    let groups = made.edits.as_slice();
    let kept = count_kept(numbers);
    let places = Places::of(alloc, asset.accessors().len(), groups, kept)?;
    Ok(MoveTables {
        accessors: accessor_moves(alloc, asset.accessors().len(), groups, &places)?,
        lists: made_lists(alloc, groups, &places)?,
        meshes: mesh_lists(alloc, asset.primitives(), groups)?,
        dropped: number_of(numbers.len() - kept)?,
        numbers: Vec::from_slice(alloc, numbers)?,
        made: made_views(alloc, made.parts.as_slice())?,
    })
}

// How many views have a new number.
fn count_kept(numbers: &[Option<u32>]) -> usize
    ensures { result ≡ count_by is_some numbers.now }
{
    let mut kept = 0;
    'views: for at in 0..numbers.len() {
        if numbers[at].is_some() {
            kept += 1;
        }
    }
    kept
}

impl Places {
    // Those of so many accessors and the ones that are made.
    fn of(
        alloc: Global,
        accessors: usize,
        groups: &[GroupEdit],
        kept: usize,
    ) -> Result<Places, NoMemory>
        ensures { IfOk result (ArePlaces groups.now accessors kept) }
    {
        let columns = group_entries(alloc, groups, Part::Columns)?;
        let lists = group_entries(alloc, groups, Part::Lists)?;
        let written = written_accessors(alloc, groups)?;
        let views = placed_entries(alloc, &written)?;
        let all = accessors.checked_add(groups.len()).ok_or(NoMemory)?;
        Ok(Places {
            columns: first_values(alloc, &columns, accessors)?,
            lists: first_values(alloc, &lists, accessors)?,
            views: first_values(alloc, &views, all)?,
            kept,
            made: written.len(),
        })
    }

    // The number of the view that is made for an accessor, past all of them where none is.
    fn view(&self, at: usize) -> Result<u32, NoMemory>
        ensures { IfOk result (λ number. number ≡ view_number self.now at) }
    {
        let place = match value_at(&self.views, at) {
            Some(place) => place as usize,
            None => self.made,
        };
        number_of(self.kept.saturating_add(place))
    }

    // What becomes of an accessor of the vertices of a group, or else of its indices.
    fn accessor_move(
        &self,
        at: usize,
        column: Option<&GroupEdit>,
        list: Option<&GroupEdit>,
    ) -> Result<AccessorMove, NoMemory>
        ensures { IfOk result (λ moved. moved ≡ move_with (view_number self.now at) (option_copied column.entry) (option_copied list.entry)) }
    {
        if let Some(group) = column {
            return Ok(AccessorMove::Column {
                view: self.view(at)?,
                count: group.records,
            });
        }
        match list {
            Some(group) => Ok(AccessorMove::Corners {
                view: self.view(at)?,
                component: list_component(group.records),
            }),
            None => Ok(AccessorMove::Stays),
        }
    }
}

// What becomes of each of so many accessors.
fn accessor_moves(
    alloc: Global,
    count: usize,
    groups: &[GroupEdit],
    places: &Places,
) -> Result<Vec<AccessorMove>, NoMemory>
    ensures { IfOk result (λ v. v.items ≡ moves_of groups.now places.now count) }
{
    let mut moves = Vec::new(alloc);
    'accessors: for at in 0..count {
        let column = group_at(groups, value_at(&places.columns, at));
        let list = group_at(groups, value_at(&places.lists, at));
        let moved = places.accessor_move(at, column, list)?;
        moves.push(moved)?;
    }
    Ok(moves)
}

// The value at this place, where there is one.
pub(crate) fn value_at(values: &[Option<u32>], at: usize) -> Option<u32>
    ensures { result ≡ value_at values.now at }
{
    match values.get(at) {
        Some(value) => *value,
        None => None,
    }
}

// The group at this place.
pub(crate) fn group_at(groups: &[GroupEdit], place: Option<u32>) -> Option<&GroupEdit>
    ensures { option_copied result ≡ group_at groups.now place }
{
    match place {
        Some(place) => groups.get(place as usize),
        None => None,
    }
}

// The component of the numbers of so many vertices.
fn list_component(records: u32) -> u32
    ensures { result ≡ component_for records }
{
    if records <= 65535 { SHORT } else { INT }
}

// The accessors that are made.
fn made_lists(
    alloc: Global,
    groups: &[GroupEdit],
    places: &Places,
) -> Result<Vec<MadeList>, NoMemory>
    ensures { IfOk result (λ v. v.items ≡ filter_map (list_made places.now) groups.now) }
{
    let mut lists = Vec::new(alloc);
    'groups: for at in 0..groups.len() {
        push_list(&mut lists, &groups[at], places)?;
    }
    Ok(lists)
}

// Puts the accessor for the primitives of a group without indices behind others, where it has such.
fn push_list(lists: &mut Vec<MadeList>, group: &GroupEdit, places: &Places) -> Result<(), NoMemory>
    ensures { OnOk result (lists.new.items ≡ lists.old.items ++ option_to_list (list_made places.now group.now)) }
{
    if let Some(number) = group.list_accessor {
        lists.push(MadeList {
            view: places.view(number as usize)?,
            component: list_component(group.records),
            count: group.count,
        })?;
    }
    Ok(())
}

// The views that are made, before they have a place.
fn made_views(alloc: Global, parts: &[MadePart]) -> Result<Vec<MadeView>, NoMemory>
    ensures { IfOk result (λ v. v.items ≡ map view_of_part parts.now) }
{
    let mut views = Vec::new(alloc);
    'parts: for at in 0..parts.len() {
        views.push(made_view(&parts[at]))?;
    }
    Ok(views)
}

fn made_view(part: &MadePart) -> MadeView
    ensures { result ≡ view_of_part part.now }
{
    let stride = match part.coding.mode {
        StreamMode::Attributes => Some(part.coding.stride as u64),
        StreamMode::Triangles | StreamMode::Indices => None,
    };
    MadeView {
        length: part.length as u64,
        stride,
    }
}
