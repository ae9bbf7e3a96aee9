//! Calls of which an allocation is refused. A run of the tests alone refuses none, and each call is made once, in full; `data/trials.py`
//! runs them with the library of `data/refuse.c` before the system's, which refuses the first allocation of a call, then the second, and
//! so on until a call meets no refusal.

mod clusters;
mod connections;
mod growths;
mod readings;
mod refusing;
