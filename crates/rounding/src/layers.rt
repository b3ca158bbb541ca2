//! The layer and the file of each map.
use crate::naming::NamedFile;
use command_line::refusal::Refusal;
use rounded_maps::{Origin, Rounded};
use std::alloc::Global;

/// Where a map is from, and which layer it is.
#[derive(Clone, Copy)]
pub struct MapLayer<'m> {
    pub name: &'m str,
    /// Whether the text of the file names it, and not the words.
    pub is_named_by_text: bool,
    /// The name that the words say of the file, if they do.
    pub name_in_words: Option<&'m str>,
    pub file: &'m str,
}

/// The layer and the file of a map.
fn layer_of<'m>(sources: &[NamedFile<'m>], origin: &'m Origin) -> MapLayer<'m> {
    let (own, is_named, file) = match sources.get(origin.text) {
        Some(source) => (source.name, source.is_named, source.file),
        None => ("", false, ""),
    };
    MapLayer {
        name: match &origin.layer {
            Some(layer) => layer.as_str(),
            None => own,
        },
        is_named_by_text: origin.layer.is_some(),
        name_in_words: if is_named { Some(own) } else { None },
        file,
    }
}

/// The layer and the file of each map: a text names its layers itself, or has the name of its file.
pub fn layers_of<'m>(
    alloc: Global,
    sources: &[NamedFile<'m>],
    rounded: &'m Rounded,
) -> Result<Vec<MapLayer<'m>>, Refusal<'m>> {
    let mut layers = Vec::with_capacity(alloc, rounded.origins.len())?;
    for origin in &rounded.origins {
        layers.push(layer_of(sources, origin))?;
    }
    Ok(layers)
}

/// The files that no map is from: topologies without objects.
pub fn files_without_maps<'m>(
    alloc: Global,
    sources: &[NamedFile<'m>],
    rounded: &Rounded,
) -> Result<Vec<&'m str>, Refusal<'m>> {
    let mut files = Vec::new(alloc);
    let mut origins = rounded.origins.as_slice();
    for (place, source) in sources.iter().enumerate() {
        let own = origins
            .iter()
            .position(|origin| origin.text != place)
            .unwrap_or(origins.len());
        if own == 0 {
            files.push(source.file)?;
        }
        origins = origins.get(own..).unwrap_or(&[]);
    }
    Ok(files)
}
