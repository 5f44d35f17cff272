// How much room libmeshoptimizer's encoders ask for.
ghost use Rattle.std.specs.Prelude.{◌≡◌, ◌≤◌, ◌^◌};
ghost use Rattle.gp_library_c.specs.Answers.{is_stride};
ghost use Rattle.gp_library_c.specs.Bounds.{attributes_bound, block_length, column_bytes, sequence_bound, triangles_bound, varint_bytes};

use crate::attributes::is_stride;

/// The bytes in which a stream of so many elements finds place, `meshopt_encodeVertexBufferBound`; 0 where the stride is none of a
/// stream.
#[unsafe(no_mangle)]
pub extern "C" fn gp_library_c_attributes_bound(count: usize, stride: usize) -> usize
    ensures { result ≡ attributes_bound (is_stride stride) count stride }
{
    if !is_stride(stride) {
        return 0;
    }
    let elements = block_length(stride);
    let block = stride * column_bytes(elements);
    let tail = stride.max(32);
    count
        .div_ceil(elements)
        .saturating_mul(block)
        .saturating_add(1 + tail)
}

/// The bytes in which a stream of so many indices, three to a triangle, finds place, where they are below `vertices`,
/// `meshopt_encodeIndexBufferBound`.
#[unsafe(no_mangle)]
pub extern "C" fn gp_library_c_triangles_bound(count: usize, vertices: usize) -> usize
    ensures { result ≡ triangles_bound count vertices }
{
    (count / 3)
        .saturating_mul(2 + 3 * varint_bytes(vertices, 1 << 6))
        .saturating_add(17)
}

/// The bytes in which a stream of so many indices finds place, where they are below `vertices`,
/// `meshopt_encodeIndexSequenceBound`.
#[unsafe(no_mangle)]
pub extern "C" fn gp_library_c_sequence_bound(count: usize, vertices: usize) -> usize
    ensures { result ≡ sequence_bound count vertices }
{
    count
        .saturating_mul(varint_bytes(vertices, 1 << 5))
        .saturating_add(5)
}

// How many elements of a stride a block has at most.
fn block_length(stride: usize) -> usize
    requires least { 4 ≤ stride }
    requires most { stride ≤ 256 }
    ensures value { result ≡ block_length stride }
    ensures some { 16 ≤ result }
    ensures few { result ≤ 256 }
{
    (8192 / stride / 16 * 16).min(256)
}

// How many bytes a column of a block of so many elements has at most.
fn column_bytes(elements: usize) -> usize
    requires { elements ≤ 256 }
    ensures value { result ≡ column_bytes elements }
    ensures few { result ≤ 260 }
{
    (elements / 16).div_ceil(4) + elements
}

// How many bytes a varint has at most, where differences among so many vertices have one.
fn varint_bytes(vertices: usize, in_one: usize) -> usize
    requires { in_one ≤ 2 ^ 6 }
    ensures value { result ≡ varint_bytes vertices in_one }
    ensures few { result ≤ 5 }
{
    if vertices <= in_one {
        1
    } else if vertices <= in_one << 7 {
        2
    } else if vertices <= in_one << 14 {
        3
    } else if vertices <= in_one << 21 {
        4
    } else {
        5
    }
}
