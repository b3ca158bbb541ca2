//! Topologies as they are written, and which texts are canonical.
use crate::topo_io_tests::texts::{NO_LAYERS, ONE_SQUARE, OTHER_TOOL, POINTS, SQUARES, built};
use sinks::Kept;
use std::alloc::Global;
use std::test::Fail;
use topo::Topology;
use topo_io::{is_canonical, is_text_of, write};
use worked_maps::rows;

fn writes(alloc: Global, topology: &Topology, text: &str) -> bool {
    let mut kept = Kept::new(alloc);
    let is_written = write(topology, &mut kept).is_ok();
    is_written && kept.into_bytes().as_slice() == text.as_bytes()
}

/// Canonical texts, and others that are not of the same topology.
const WRITTEN: &[(&str, &str, &[&str])] = rows! {
    "two squares", SQUARES, &["{}\n", ONE_SQUARE];
    "points and the null shape", POINTS, &[SQUARES];
    "no layers", NO_LAYERS, &[SQUARES];
};

/// Whether the topology has one of these texts.
fn has_one_of(topology: &Topology, texts: &[&str]) -> bool {
    for text in texts {
        if is_text_of(topology, text.as_bytes()) {
            return true;
        }
    }
    false
}

/// Whether the topology has the text, and not what is left of it without its last byte.
fn has_whole(topology: &Topology, text: &str) -> bool {
    match text.as_bytes().split_last() {
        Some((_, front)) => {
            is_text_of(topology, text.as_bytes()) && !is_text_of(topology, front)
        }
        None => false,
    }
}

#[test]
fn topologies_of_canonical_texts(rt: HostRuntime) -> Result<(), Fail> {
    for (title, text, others) in WRITTEN {
        let topology = built(rt.alloc(), *text)?;
        assert!(rt; writes(rt.alloc(), &*topology, *text), "{title}");
        let has_it_alone = has_whole(&*topology, *text) && !has_one_of(&*topology, *others);
        assert!(rt; has_it_alone, "{title}: others");
    }
    Ok(())
}

/// Whether the text is canonical; none where it is refused.
fn canonical(alloc: Global, text: &[u8]) -> Option<bool> {
    is_canonical(alloc, text).ok()
}

#[test]
fn texts_that_are_canonical(rt: HostRuntime) -> Result<(), Fail> {
    assert!(rt; canonical(rt.alloc(), OTHER_TOOL.as_bytes()) == Some(false));
    assert!(rt; canonical(rt.alloc(), ONE_SQUARE.as_bytes()) == Some(true));
    let (_, rest) = ONE_SQUARE.as_bytes().split_first().ok_or("empty")?;
    assert!(rt; canonical(rt.alloc(), rest).is_none());
    Ok(())
}
