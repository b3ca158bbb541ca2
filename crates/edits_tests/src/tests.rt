//! What differs between topologies, which vertices are near each other, and which ids are missing or repeated; merges,
//! shards, removals and sessions.
mod differences;
mod groupings;
mod ids;
mod inputs;
mod merges;
mod near;
mod own_shard;
mod removals;
mod sessions;
mod shards;
