//! Tests of libraries that work on lists: of spans, triples and bytes.
mod bundles;
mod filters;
mod literals;
mod spans;
