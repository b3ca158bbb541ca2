//! All faults of topologies, in order; the first is the one that `read` answers.
use crate::printed::fault_lines;
use crate::topo_io_tests::texts::topology;
use std::test::Fail;
use topo_io::{faults, read};
use worked_maps::rows;

/// Texts, and the faults of each.
const ALL: &[(&str, &str, &str)] = rows! {
    "none", topology!("[[[0,0],[1,0]]]", r#"{"a":{"type":"LineString","arcs":[-1]}}"#), "";
    "no text", "{", "1 $; ";
    "no transform, and then nothing else", r#"{"type":"Topology","arcs":5}"#, "15 $/transform; ";
    "a faulty transform behind arcs and objects", r#"{"type":"Topology","transform":{"scale":[0,1.5],"translate":[]},"arcs":[[[0]]],"objects":5}"#, "16 $/arcs/0/0; 3 $/objects; 6 $/transform/scale/0; 5 $/transform/scale/1; 16 $/transform/translate; ";
    "sums past 64 bits, and back", topology!("[[[9223372036854775807,0],[9223372036854775807,1],[-9223372036854775807,0],[-9223372036854775807,0],[0,true],[0,-5]]]", "{}"), "6 $/arcs/0/0/0; 6 $/arcs/0/1/0; 6 $/arcs/0/2/0; 3 $/arcs/0/4/1; ";
    "no sums behind what is no pair", topology!("[[[0,0],5,[9223372036854775807,0]],[[0,0]]]", "{}"), "3 $/arcs/0/1; 8 $/arcs/1; ";
    "indexes of arcs of which one is faulty, and no lists", topology!("[[[0,0],[1,0]],[]]", r#"{"a":{"type":"Polygon","arcs":[[0],[1,2],[-3,-2]]}}"#), "8 $/arcs/1; 11 $/objects/a/arcs/1/1; 11 $/objects/a/arcs/2/0; ";
    "indexes where the arcs are no array", topology!("5", r#"{"a":{"type":"MultiLineString","arcs":[[0,true],1]}}"#), "3 $/arcs; 3 $/objects/a/arcs/1; ";
    "no arcs", r#"{"type":"Topology","transform":{"scale":[1,1],"translate":[0,0]},"objects":{"a":{"type":"LineString","arcs":["x"]},"b":7}}"#, "2 $/arcs; 3 $/objects/b; ";
    "lists, the one broken, the other used twice, and an empty one", topology!("[[[0,0],[1,0],[0,1]],[[5,5],[1,0]]]", r#"{"a":{"type":"MultiLineString","arcs":[[0,1],[0,-1],[],[0]]},"b":{"type":"Polygon","arcs":[[0]]}}"#), "12 $/objects/a/arcs/0; 10 $/objects/a/arcs/1; 8 $/objects/a/arcs/2; 9 $/objects/b/arcs/0; ";
    "layers in the order of their names", topology!("[]", r#"{"b":{"type":"Point"},"a":{"type":"GeometryCollection","geometries":[{"type":"GeometryCollection"},{"type":null,"id":[],"properties":7}]},"":5}"#), "3 $/objects/; 4 $/objects/a/geometries/0/type; 3 $/objects/a/geometries/1/id; 3 $/objects/a/geometries/1/properties; 2 $/objects/b/coordinates; ";
};

/// The first of all faults is the one that `read` answers.
#[test]
fn faults_in_order(rt: HostRuntime) -> Result<(), Fail> {
    for (title, text, all) in ALL {
        let found = faults(rt.alloc(), text.as_bytes())?;
        let is_least_first = found.first() == read(rt.alloc(), text.as_bytes()).err().as_ref();
        assert!(rt; is_least_first, "{title}: the least");
        let lines = fault_lines(rt.alloc(), found.as_slice())?;
        assert!(rt; lines.as_str() == *all, "{title}: {lines}");
    }
    Ok(())
}
