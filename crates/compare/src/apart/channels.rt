// The four handshake channels by number: twice that of the port, and one more for an output.

pub(super) const A_IN: usize = 0;

pub(super) const A_OUT: usize = 1;

pub(super) const B_IN: usize = 2;

pub(super) const B_OUT: usize = 3;
