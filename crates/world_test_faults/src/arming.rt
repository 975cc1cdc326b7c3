//! Plans that come and go: by lines, which the world keeps to, and at any time.

mod devices;
mod lines;
