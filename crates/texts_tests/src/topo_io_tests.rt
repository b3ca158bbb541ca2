//! Topology texts.
mod all_faults;
mod other_forms;
mod parts_read;
mod parts_stitched;
mod texts;
mod texts_read;
mod texts_written;
mod whole_texts;
