mod busy;
mod slow;
mod streams;
mod sure;
mod trees;
