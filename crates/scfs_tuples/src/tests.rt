//! Tables of steps, run on the maps and on the plain list.
mod checking;
mod notation;
mod table;
