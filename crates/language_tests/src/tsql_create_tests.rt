mod table;
mod tree;
