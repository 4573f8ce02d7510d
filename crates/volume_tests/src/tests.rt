mod bases;
mod bounds;
mod filling;
mod fixtures;
mod numbered_rows;
mod spelled_blocks;
