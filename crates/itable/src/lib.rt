//! The lowest rooms of the file system: i-nodes, files laid in blocks, and i-tables, which give each i-number of a
//! principal the digest of its i-node.
#![tactic(auto)]

mod chunk;
mod error;
mod file;
mod inode;
mod inode_text;
mod known;
mod laws;
mod listed;
mod pairs;
mod root;
mod table;

pub use chunk::{Chunk, ChunkNumber, Pair, read_chunk};
pub use error::LayError;
pub use file::{Laid, blocks_of, lay_file};
pub use inode::{BLOCK_SIZE, DIRECTORY_SIZE, FILE_SIZE, Inode, Kind};
pub use inode_text::InodeText;
pub use laws::loaded_in_tables;
pub use root::{ListedChunk, Root, read_root};
pub use table::ITable;
