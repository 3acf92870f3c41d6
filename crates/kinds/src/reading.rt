// The case of a book: what it means, or its refusal.
use book::{Counts, Loaded, Needs};
use dates::Window;
use limits::{ENTRY, MOST_VERTICES, NO_ARC};
use std::fmt;

pub fn read_case(rt: &impl Print, bytes: &[u8]) {
    match book::load(bytes) {
        Ok(book) => write_book(rt, &book),
        Err(refusal) => println!(rt; "{refusal}").unwrap_or(()),
    }
}

fn write_book(rt: &impl Print, book: &Loaded) {
    let Counts {
        vertices,
        arcs,
        sets,
        paths,
    } = book.counts;
    println!(rt; "GRADES {vertices} CHANGEOVERS {arcs} SHEETS {sets} RUNS {paths}").unwrap_or(());
    write_arcs(rt, book);
    for (set, needs) in book.needs.iter().take(sets).enumerate() {
        write_needs(rt, *needs);
        write_paths_of(rt, set, book);
    }
}

fn write_needs(rt: &impl Print, needs: Needs) {
    let flags = needs.flags;
    match needs.window {
        None => println!(rt; "SHEET {flags}").unwrap_or(()),
        Some(Window { first, last }) => {
            println!(rt;
                "SHEET {flags} WINDOW {} {} {} {}",
                first.day, first.month, last.day, last.month
            )
            .unwrap_or(());
        }
    }
}

// In rising order of tail, then head.
fn write_arcs(rt: &impl Print, book: &Loaded) {
    for (pair, weight) in book.weights.iter().enumerate() {
        if *weight != NO_ARC {
            println!(rt;
                "ARC {} {} {weight}",
                pair / MOST_VERTICES,
                pair % MOST_VERTICES
            )
            .unwrap_or(());
        }
    }
}

fn write_paths_of(rt: &impl Print, set: usize, book: &Loaded) {
    let entries = book.entries.chunks_exact(ENTRY).take(book.counts.paths);
    for (owner, entry) in book.owners.iter().zip(entries) {
        if usize::from(*owner) == set {
            println!(rt; "RUN{}", Path(entry)).unwrap_or(());
        }
    }
}

// The path of an entry: its vertices, a blank before each.
#[derive(Clone, Copy)]
struct Path<'a>(&'a [u8]);

impl fmt::Display for Path<'_> {
    fn fmt<W: fmt::Write>(&self, f: &mut fmt::Formatter<W>) -> fmt::Result {
        if let Some((n, vertices)) = self.0.split_first() {
            for vertex in vertices.iter().take(usize::from(*n)) {
                write!(f, " {vertex}")?;
            }
        }
        Ok(())
    }
}
