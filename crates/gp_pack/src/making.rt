// Groups moved one at a time, with the views that are made for each.
ghost use Rattle.std.specs.Prelude.{◌≡◌, ◌<◌, ◌≤◌, ◌^◌, ◌+◌, ◌++◌, drop, nat_le, if◌then◌else◌, length, slice_get, slice_index, Some, true, IfOk, OnOk};
ghost use Rattle.std.specs.List.{All};
ghost use Rattle.gp_rules.specs.declared.accessing.Accessor.{Accessor as AnyAccessor};
ghost use Rattle.gp_rules.specs.Views.{is_stride_in};
ghost use Rattle.gp_moving.specs.Triangles.{IsTriangleList};
ghost use Rattle.gp_mover.specs.MovedParts.{record_size};
ghost use Rattle.gp_mover.specs.MadeBytes.{list_width};
ghost use Rattle.gp_mover.specs.Standing.{parts_of, IsWhole};
ghost use Rattle.gp_packed.specs.MovedGroups.{number_if, next_if};
ghost use Rattle.gp_pack.specs.MadeParts.{column_coding, column_part_of, column_parts, list_parts, edit_of};
ghost use Rattle.gp_pack.specs.Making.{CanMoveAll, CanMove, MovesAll, with_group, with_movable, kept};

use crate::made::{MadePart, store_made};
use crate::own_views::OwnViews;
use gp_alias::Group;
use gp_asset::Asset;
use gp_host::{NoMemory, Numbers};
use gp_mover::{MovedGroup, column_bytes, list_bytes, move_group};
use gp_moves::GroupEdit;
use gp_rules::{Accessor, StreamMode, element_size};
use gp_storage::Coding;
use std::alloc::Global;

// What is left of groups that moved, and the number that the next accessor gets.
#[derive(Drop)]
pub(crate) struct MadeGroups {
    pub(crate) edits: Vec<GroupEdit>,
    pub(crate) parts: Vec<MadePart>,
    next: usize,
}

// Moves those groups that may move. The records of one group at a time are held.
pub(crate) fn move_groups(
    alloc: Global,
    asset: &Asset<'_>,
    groups: Vec<Group>,
) -> Result<MadeGroups, NoMemory>
    requires { CanMoveAll asset.now groups.items }
    ensures { IfOk result (MovesAll asset.now groups.items) }
{
    let mut made = MadeGroups {
        edits: Vec::new(alloc),
        parts: Vec::new(alloc),
        next: asset.accessors().len(),
    };
    let mut groups = groups;
    'groups: for at in 0..groups.len() {
        let group = take_group(alloc, &mut groups, at);
        made.append_movable(alloc, asset, group)?;
    }
    Ok(made)
}

// The group at this place, which is empty from then on.
fn take_group(alloc: Global, groups: &mut Vec<Group>, at: usize) -> Group
    requires { at < length groups.old.items }
    ensures taken { slice_get groups.old.items at ≡ Some result }
    ensures rest { drop (at + 1) groups.new.items ≡ drop (at + 1) groups.old.items }
    ensures long { length groups.new.items ≡ length groups.old.items }
{
    let empty = Group {
        primitives: Numbers::from_vec(Vec::new(alloc)),
        columns: Numbers::from_vec(Vec::new(alloc)),
        lists: Numbers::from_vec(Vec::new(alloc)),
        bare: false,
        count: 0,
        movable: false,
    };
    std::mem::replace(&mut groups[at], empty)
}

impl MadeGroups {
    // Moves a group where it may move.
    fn append_movable(
        &mut self,
        alloc: Global,
        asset: &Asset<'_>,
        group: Group,
    ) -> Result<(), NoMemory>
        requires { group.movable ≡ true → CanMove asset.now group }
        ensures { OnOk result (kept self.new ≡ with_movable asset.now (kept self.old) group) }
    {
        if group.movable {
            self.append(alloc, asset, group)?;
        }
        Ok(())
    }

    // Moves a group, and puts what is left of it behind the others.
    fn append(&mut self, alloc: Global, asset: &Asset<'_>, group: Group) -> Result<(), NoMemory>
        requires { CanMove asset.now group }
        ensures { OnOk result (kept self.new ≡ with_group asset.now (kept self.old) group) }
    {
        let list_accessor = self.next_accessor(group.bare)?;
        let views = OwnViews { asset };
        let moved = move_group(alloc, asset, &views, group)?;
        push_columns(alloc, asset, &moved, &mut self.parts)?;
        push_lists(alloc, &moved, &mut self.parts)?;
        let edit = group_edit(moved, list_accessor)?;
        self.edits.push(edit)?;
        Ok(())
    }

    // The number of the accessor for primitives without indices, where the group has such.
    fn next_accessor(&mut self, bare: bool) -> Result<Option<u32>, NoMemory>
        ensures value { IfOk result (λ number. number ≡ number_if bare self.old.next) }
        ensures next { OnOk result (self.new.next ≡ next_if bare self.old.next) }
        ensures edits { self.new.edits ≡ self.old.edits }
        ensures parts { self.new.parts ≡ self.old.parts }
    {
        if !bare {
            return Ok(None);
        }
        let number = number_of(self.next)?;
        self.next += 1;
        Ok(Some(number))
    }
}

// Makes the views of the columns of a group.
fn push_columns(
    alloc: Global,
    asset: &Asset<'_>,
    moved: &MovedGroup,
    parts: &mut Vec<MadePart>,
) -> Result<(), NoMemory>
    requires known { All (λ k. k < length asset.now.accessors) moved.now.group.columns }
    requires size { moved.now.size ≡ record_size asset.now moved.now.group.columns }
    requires whole { IsWhole moved.now }
    ensures { OnOk result (parts.new.items ≡ parts.old.items ++ column_parts asset.now (parts_of moved.now)) }
{
    'columns: for at in 0..moved.group.columns.as_slice().len() {
        let part = column_part(alloc, asset, moved, at)?;
        parts.push(part)?;
    }
    Ok(())
}

// Makes the view of a column.
fn column_part(
    alloc: Global,
    asset: &Asset<'_>,
    moved: &MovedGroup,
    at: usize,
) -> Result<MadePart, NoMemory>
    requires within { at < length moved.now.group.columns }
    requires known { All (λ k. k < length asset.now.accessors) moved.now.group.columns }
    requires size { moved.now.size ≡ record_size asset.now moved.now.group.columns }
    requires whole { IsWhole moved.now }
    ensures { (accessor : AnyAccessor) → slice_get asset.now.accessors (slice_index moved.now.group.columns at) ≡ Some accessor
        → IfOk result (λ part. part ≡ column_part_of asset.now (parts_of moved.now) at accessor) }
{
    let number = moved.group.columns.as_slice()[at] as usize;
    let coding = column_coding(&asset.accessors()[number]);
    let contents = column_bytes(alloc, asset, moved, at)?;
    store_made(alloc, coding, contents)
}

// How a column may be coded.
fn column_coding(accessor: &Accessor) -> Coding
    ensures value { result ≡ column_coding accessor.now }
    ensures shape { is_stride_in result.mode result.stride ≡ true }
{
    let size = element_size(accessor.component, accessor.shape);
    Coding {
        mode: StreamMode::Attributes,
        stride: size.div_ceil(4) * 4,
    }
}

// Makes the views of the lists of a group.
fn push_lists(alloc: Global, moved: &MovedGroup, parts: &mut Vec<MadePart>) -> Result<(), NoMemory>
    requires whole { IsWhole moved.now }
    requires few { length (parts_of moved.now).records ≤ 2 ^ 24 }
    requires lists { All (IsTriangleList (length (parts_of moved.now).records)) (parts_of moved.now).ordered }
    ensures { OnOk result (parts.new.items ≡ parts.old.items ++ list_parts (parts_of moved.now)) }
{
    let stride = list_width(moved);
    'lists: for at in 0..moved.corners.ends.as_slice().len() {
        let coding = Coding {
            mode: StreamMode::Triangles,
            stride,
        };
        let contents = list_bytes(alloc, moved, at)?;
        let part = store_made(alloc, coding, contents)?;
        parts.push(part)?;
    }
    Ok(())
}

// The bytes of a vertex number of a group.
fn list_width(moved: &MovedGroup) -> u32
    requires { IsWhole moved.now }
    ensures { result ≡ list_width (parts_of moved.now) }
{
    width_of(moved.records.as_slice().len() / moved.size)
}

// The same where there are so many vertices.
fn width_of(count: usize) -> u32
    ensures { result ≡ (if nat_le count 65535 then 2 else 4) }
{
    if count <= 65535 { 2 } else { 4 }
}

// What the JSON says of a group that moved.
fn group_edit(moved: MovedGroup, list_accessor: Option<u32>) -> Result<GroupEdit, NoMemory>
    requires { IsWhole moved }
    ensures { IfOk result (λ edit. edit ≡ edit_of (parts_of moved) list_accessor) }
{
    let records = number_of(moved.records.as_slice().len() / moved.size)?;
    let group = moved.group;
    Ok(GroupEdit {
        primitives: group.primitives,
        columns: group.columns,
        lists: group.lists,
        list_accessor,
        count: group.count,
        records,
    })
}

// A place as a number. One of 2^32 or more is want of memory.
pub(crate) fn number_of(at: usize) -> Result<u32, NoMemory>
    ensures { IfOk result (λ number. number ≡ at) }
{
    u32::try_from(at).map_err(|_| NoMemory)
}
