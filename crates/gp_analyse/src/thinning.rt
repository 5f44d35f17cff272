// The numbers of a list of indices without each 0 right behind a 0: an accessor without a view may have far more zeros than the
// input has bytes, and they are passed over together.
ghost use Rattle.std.specs.Prelude.{◌≡◌, ◌≤◌, ◌++◌, ◌||◌, nat_lt, false, [], map, Some, IfOk, OnOk};
ghost use Rattle.gp_elements.specs.Elements.{number_of, indices_in};
ghost use Rattle.gp_elements.specs.Held.{HasEvery, contents_of, IsSound};
ghost use Rattle.gp_alias.specs.Records.{AreNumbers};
ghost use Rattle.gp_analyse.specs.Costs.{IsIndexList, AreGiven, kept, thinned, zeros_kept};

use gp_asset::{Asset, ViewBytes};
use gp_elements::Elements;
use gp_host::NoMemory;
use gp_rules::{Accessor, Shape, Sparse};
use std::alloc::Global;

/// An accessor of the corners of whole triangles, and its elements.
#[derive(Drop)]
pub struct IndexList<'a> {
    /// The accessor.
    pub accessor: Accessor,
    /// Its elements, each a number.
    pub elements: Elements<'a>,
}

/// The numbers of a list without each 0 right behind a 0.
pub(crate) fn thin<V: ViewBytes>(
    alloc: Global,
    asset: &Asset<'_>,
    views: &V,
    list: &IndexList<'_>,
) -> Result<Vec<u32>, NoMemory>
    requires views { HasEvery asset.now.views (V.views views.now) }
    requires list { IsIndexList asset.now (contents_of (V.views views.now)) list.now }
    ensures { IfOk result (λ numbers. numbers.items ≡ thinned false (map number_of list.now.elements)) }
{
    if list.accessor.view.is_some() {
        return thin_all(alloc, &list.elements);
    }
    match list.accessor.sparse {
        Some(sparse) => {
            let places = places(asset, views, &list.accessor, &sparse);
            thin_given(alloc, &list.elements, &places)
        }
        None => thin_zeros(alloc, &list.elements),
    }
}

// Number by number.
fn thin_all(alloc: Global, elements: &Elements<'_>) -> Result<Vec<u32>, NoMemory>
    requires { AreNumbers elements.now }
    ensures { IfOk result (λ numbers. numbers.items ≡ thinned false (map number_of elements.now)) }
{
    let mut numbers = Vec::new(alloc);
    let mut behind_zero = false;
    'items: for at in 0..elements.len() {
        let number = elements.number(at);
        push_kept(&mut numbers, behind_zero, number)?;
        behind_zero = number == 0;
    }
    Ok(numbers)
}

// Where all are zeros.
fn thin_zeros(alloc: Global, elements: &Elements<'_>) -> Result<Vec<u32>, NoMemory>
    requires { AreGiven (map number_of elements.now) [] }
    ensures { IfOk result (λ numbers. numbers.items ≡ thinned false (map number_of elements.now)) }
{
    let mut numbers = Vec::new(alloc);
    push_zeros(&mut numbers, false, 0, elements.len())?;
    Ok(numbers)
}

// Where all are zeros but at these places, which rise.
fn thin_given(
    alloc: Global,
    elements: &Elements<'_>,
    places: &Elements<'_>,
) -> Result<Vec<u32>, NoMemory>
    requires numbers { AreNumbers elements.now }
    requires places { AreNumbers places.now }
    requires given { AreGiven (map number_of elements.now) (map number_of places.now) }
    ensures { IfOk result (λ numbers. numbers.items ≡ thinned false (map number_of elements.now)) }
{
    let mut numbers = Vec::new(alloc);
    let mut behind_zero = false;
    let mut next = 0;
    'places: for at in 0..places.len() {
        let place = places.number(at) as usize;
        push_zeros(&mut numbers, behind_zero, next, place)?;
        let number = elements.number(place);
        push_kept(
            &mut numbers,
            is_behind_zero(behind_zero, next, place),
            number,
        )?;
        behind_zero = number == 0;
        next = place + 1;
    }
    push_zeros(&mut numbers, behind_zero, next, elements.len())?;
    Ok(numbers)
}

// The places at which a `sparse` gives values.
fn places<'a, V: ViewBytes>(
    asset: &Asset<'_>,
    views: &'a V,
    accessor: &Accessor,
    sparse: &Sparse,
) -> Elements<'a>
    requires views { HasEvery asset.now.views (V.views views.now) }
    requires accessor { IsSound asset.now.views accessor.now }
    requires sparse { accessor.now.sparse ≡ Some sparse.now }
    ensures places { map number_of result ≡ indices_in (contents_of (V.views views.now)) sparse.now }
    ensures numbers { AreNumbers result }
{
    let places = Accessor {
        view: Some(sparse.index_view),
        offset: sparse.index_offset,
        component: sparse.index_component,
        shape: Shape::Scalar,
        count: sparse.count,
        sparse: None,
    };
    Elements::over(views.view(sparse.index_view as usize), &places, None)
}

// Whether a 0 stands behind those between two places, or behind what is before them where there are none.
fn is_behind_zero(behind_zero: bool, from: usize, to: usize) -> bool
    ensures { result ≡ (behind_zero || nat_lt from to) }
{
    behind_zero || from < to
}

// One 0 for those between two places, where there are any.
fn push_zeros(
    numbers: &mut Vec<u32>,
    behind_zero: bool,
    from: usize,
    to: usize,
) -> Result<(), NoMemory>
    ensures { OnOk result (numbers.new.items ≡ numbers.old.items ++ zeros_kept behind_zero from to) }
{
    if from < to {
        push_kept(numbers, behind_zero, 0)
    } else {
        Ok(())
    }
}

// A number, unless it is a 0 right behind a 0.
fn push_kept(numbers: &mut Vec<u32>, behind_zero: bool, number: u32) -> Result<(), NoMemory>
    ensures { OnOk result (numbers.new.items ≡ numbers.old.items ++ kept behind_zero number) }
{
    if behind_zero && number == 0 {
        return Ok(());
    }
    numbers.push(number)?;
    Ok(())
}
