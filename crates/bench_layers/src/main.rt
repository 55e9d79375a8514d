//! Measures what its first word names: trees, queries, or requests of HTTP that are read.
#![tactic(auto)]

mod http;
mod queries;
mod trees;

use std::{env, io};

fn main(rt: HostRuntime) -> io::Result<()> {
    let Some(layer) = env::args(&rt)?.nth(1) else {
        return println!(rt; "trees|queries|http");
    };
    match layer.as_str() {
        "trees" => trees::measure(&rt),
        "queries" => queries::measure(&rt),
        "http" => http::measure(&rt),
        _ => println!(rt; "trees|queries|http"),
    }
}
