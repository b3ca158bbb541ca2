//! The arcs and the layers of a text, normalized.
ghost use Rattle.std.specs.Prelude.{IfOk, IfSome};
ghost use Rattle.validate.specs.Accept.Kept.{KeepLayers};
ghost use Rattle.validate.specs.Accept.Laws.{HaveI64};

use crate::copies::layers_copied;
use crate::heal::healed_arcs;
use crate::lists::HealedLists;
use crate::split::Split;
use chains::ArcTable;
use faults::OutOfMemory;
use grid::pos::Pos;
use lines::items::Items;
use std::alloc::Global;
use topo::Layer;
use validate::accept::line_ends;

/// Arcs that are noded and healed, in order, each in its lesser direction and a free loop begun at its least
/// vertex; and layers by these arcs.
#[derive(Drop)]
pub struct Normalized {
    pub arcs: ArcTable,
    pub layers: Vec<Layer>,
}

/// The arcs of a text noded and healed, and the layers by these: arcs that no list uses drop out, the others
/// are split where they meet, so that each stretch is an arc once, and joined where no line ends and not
/// three ends of arcs meet. Each geometry then stitches only to what it stitched to: each arc is compared
/// with what its pieces stitch to, and each list with its pieces. A list that fails, as one that names an arc
/// which is not there, gets an arc that is not there. `None` where a healed arc is not what its pieces
/// stitch to.
///
/// # Errors
/// Where memory is refused.
pub fn normalize(
    alloc: Global,
    arcs: &[Items<Pos>],
    layers: &[Layer],
) -> Result<Option<Normalized>, OutOfMemory>
    ensures kept { IfOk result (λ o. IfSome o (λ n. KeepLayers arcs.now n.arcs.arcs layers.now n.layers.items)) }
    ensures ids { IfOk result (λ o. IfSome o (λ n. HaveI64 layers.now → HaveI64 n.layers.items)) }
{
    let Some(split) = Split::of(alloc, arcs, layers)? else {
        return Ok(None);
    };
    let ends = line_ends(alloc, &arcs, layers)?;
    let Some(joined) = healed_arcs(alloc, &split.table, &ends)? else {
        return Ok(None);
    };
    let lists = HealedLists {
        split: &split,
        joined: &joined,
    };
    let layers = layers_copied(alloc, &lists, layers)?;
    let (arcs, _) = joined.into_parts();
    Ok(Some(Normalized { arcs, layers }))
}
