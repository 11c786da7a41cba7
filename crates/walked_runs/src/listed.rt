//! The list of the runs.

/// A run's name, and what the list says of it.
#[derive(Drop)]
pub struct Listed<'a> {
    pub name: &'a str,
    pub ordered: bool,
    pub promised: bool,
    pub followed: bool,
}

/// The run that a line of the list names.
pub fn listed_in(line: &str) -> Option<Listed<'_>> {
    let mut words = line.split_whitespace();
    let name = words.next()?;
    let mut run = Listed {
        name,
        ordered: false,
        promised: false,
        followed: false,
    };
    for word in words {
        match word {
            "order" => run.ordered = true,
            "promised" => run.promised = true,
            "followed" => run.followed = true,
            _ => {}
        }
    }
    Some(run)
}
