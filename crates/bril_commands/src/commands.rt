// The commands that need no machine words, a file each.

pub mod check;
pub mod interp;
pub mod json;
pub mod passes;
pub mod recording;
pub mod text;
