//! Queues that more was pushed to than they hold.
use super::*;

#[test]
fn an_edge_leads_from_the_newest_of_its_places(rt: HostRuntime) {
    let mut edges = EdgeQueue::new();
    assert_eq!(rt; edges.at(0), (u32::MAX, u32::MAX));
    for step in 0..20 {
        edges.push(step % 18, step % 18 + 1);
    }
    assert_eq!(rt; (edges.at(0), edges.at(15)), ((1, 2), (4, 5)));
    let cases = [
        // sides (a, b), (b, c) and (c, a), at the first place and at the last that is searched
        ((1, 2, 50), Some((0, 0))),
        ((50, 1, 2), Some((0, 1))),
        ((2, 50, 1), Some((0, 2))),
        ((5, 6, 50), Some((14, 0))),
        // the newer of two edges, though it is the later side
        ((7, 8, 9), Some((11, 1))),
        // the edge at place 15, an edge the other way round, and one that was dropped
        ((4, 5, 50), None),
        ((2, 1, 50), None),
        ((3, 4, 50), None),
    ];
    for ((a, b, c), want) in cases {
        assert_eq!(rt; edges.find(a, b, c), want, "at {a} {b} {c}");
    }
}

#[test]
fn a_vertex_is_found_at_the_least_place(rt: HostRuntime) {
    let mut vertices = VertexQueue::new();
    assert_eq!(rt; vertices.find(u32::MAX, 0, 16), Some(0));
    for step in 0..20 {
        vertices.push(step % 18);
    }
    assert_eq!(rt; (vertices.at(0), vertices.at(15)), (1, 4));
    let cases = [
        ((1, 0, 16), Some(0)),
        ((1, 1, 16), None),
        ((4, 0, 16), Some(15)),
        ((4, 0, 15), None),
        ((17, 2, 3), Some(2)),
        ((17, 3, 3), None),
        ((3, 0, 16), None),
    ];
    for ((vertex, from, past), want) in cases {
        assert_eq!(rt;
            vertices.find(vertex, from, past),
            want,
            "{vertex} in {from}..{past}"
        );
    }
}
