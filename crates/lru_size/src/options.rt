//! The command line.

use crate::failure::Failure;
use crate::order::Order;
use clap::error::ErrorKind;
use clap::{Arg, ArgAction, ArgMatches, Command, Error, value_parser};
use std::alloc::{AllocError, Global};

/// The version of the program, which is that of the whole repository.
const VERSION: &str = "2.0.0";

/// The path that means standard input for the trace, and standard output for the results.
const STANDARD_STREAM: &str = "-";

/// What the arguments ask for.
#[derive(Drop)]
pub enum Request<'a> {
    /// The text of the help or of the version.
    Text(String),
    /// A hit curve.
    Size(Options<'a>),
}

/// The options of a run.
#[derive(Drop)]
pub struct Options<'a> {
    /// The path of the trace, or `None` if it is standard input.
    pub trace: Option<&'a str>,
    /// The capacities of the table's rows, in order. If empty, evenly spaced capacities are used.
    pub capacities: Vec<u64>,
    /// The path to write the plot to; `-` is standard output. It is not that of the CSV file.
    pub svg: Option<&'a str>,
    /// The path to write the CSV file to; `-` is standard output.
    pub csv: Option<&'a str>,
    /// The capacity to replay the trace at.
    pub check: Option<u64>,
    /// If `Some(n)`, the curve is estimated from about one key in `n`.
    pub sample: Option<u64>,
    /// The orders whose hits are counted beside those of the exact order. Not with a sample.
    pub orders: Vec<Order>,
}

impl<'a> Request<'a> {
    /// Parses the arguments after the program's name.
    ///
    /// # Errors
    ///
    /// `Usage` if the arguments are invalid, `OneFile` if the plot and the CSV file would go to the
    /// same place, and `OutOfMemory` if memory runs out.
    pub fn parse(alloc: Global, args: &'a [String]) -> Result<Request<'a>, Failure> {
        match command(alloc)?.try_get_matches_from(args) {
            Ok(matches) => Ok(Request::Size(Options::from_matches(alloc, &matches)?)),
            Err(error) => Request::from_error(alloc, &error),
        }
    }

    // The parser reports a request for the help or the version as an error too.
    fn from_error(alloc: Global, error: &Error) -> Result<Request<'a>, Failure> {
        if matches!(error.kind(), ErrorKind::OutOfMemory) {
            return Err(Failure::OutOfMemory);
        }
        let text = format!(in alloc; "{error}")?;
        if error.use_stderr() {
            Err(Failure::Usage(text))
        } else {
            Ok(Request::Text(text))
        }
    }
}

impl<'a> Options<'a> {
    /// Returns whether the plot or the CSV file goes to standard output, in place of the table.
    pub fn replace_table(&self) -> bool {
        self.svg == Some(STANDARD_STREAM) || self.csv == Some(STANDARD_STREAM)
    }

    fn from_matches(alloc: Global, matches: &ArgMatches<'a>) -> Result<Options<'a>, Failure> {
        let mut capacities = Vec::new(alloc);
        if let Some(values) = matches.get_many::<u64>("capacities") {
            for capacity in values {
                // Always `Ok`, since the argument's parser has accepted the value.
                if let Ok(capacity) = capacity {
                    capacities.push(capacity)?;
                }
            }
        }
        let mut orders = Vec::new(alloc);
        for order in [Order::Clock, Order::Optimum] {
            if matches.get_flag(order.name()) {
                orders.push(order)?;
            }
        }
        let (svg, csv) = (matches.get_str("svg"), matches.get_str("csv"));
        if svg.is_some() && svg == csv {
            return Err(Failure::OneFile);
        }
        let trace = matches.get_str("trace");
        Ok(Options {
            trace: trace.filter(|path| *path != STANDARD_STREAM),
            capacities,
            svg,
            csv,
            check: matches.get_one::<u64>("check"),
            sample: matches.get_one::<u64>("sample"),
            orders,
        })
    }
}

fn command<'a>(alloc: Global) -> Result<Command<'a>, AllocError> {
    Command::new(alloc, "lru_size")
        .about(
            "Reads a trace, a line KEY [CHARGE] for each use, and prints how many uses hit at each \
            capacity.",
        )
        .version(VERSION)
        .no_binary_name(true)
        .arg(trace(alloc))?
        .arg(capacities(alloc))?
        .arg(file(
            alloc,
            "svg",
            "Write the curve to FILE as an SVG image; if FILE is -, to standard output, instead of \
                the table",
        ))?
        .arg(file(
            alloc,
            "csv",
            "Write the curve to FILE as CSV; if FILE is -, to standard output, instead of the \
                table",
        ))?
        .arg(flag(
            alloc,
            "clock",
            "Also print the hits of the clock cache, replayed at each capacity of the table",
        ))?
        .arg(flag(
            alloc,
            "optimum",
            "Also print the hits of Belady's optimum, in which what is used again latest, or \
                never, leaves first; if charges differ, other orders may hit more often",
        ))?
        .arg(check(alloc))?
        .arg(sample(alloc)?)
}

fn trace<'a>(alloc: Global) -> Arg<'a> {
    Arg::new(alloc, "trace")
        .value_name("TRACE")
        .help("The file that has the trace; if it is - or left out, standard input")
        .action(ArgAction::Set)
}

fn capacities<'a>(alloc: Global) -> Arg<'a> {
    Arg::new(alloc, "capacities")
        .long("capacities")
        .value_name("CAPACITY,..")
        .help("Print the hits at these capacities, instead of ten evenly spaced ones")
        .action(ArgAction::Append)
        .value_delimiter(',')
        .value_parser(value_parser!(u64))
}

fn file<'a>(alloc: Global, name: &'a str, help: &'a str) -> Arg<'a> {
    Arg::new(alloc, name)
        .long(name)
        .value_name("FILE")
        .help(help)
        .action(ArgAction::Set)
}

fn flag<'a>(alloc: Global, name: &'a str, help: &'a str) -> Arg<'a> {
    Arg::new(alloc, name)
        .long(name)
        .help(help)
        .action(ArgAction::SetTrue)
}

fn check<'a>(alloc: Global) -> Arg<'a> {
    Arg::new(alloc, "check")
        .long("check")
        .value_name("CAPACITY")
        .help("Replay the trace in a cache of this capacity, and compare the hits with the curve")
        .action(ArgAction::Set)
        .value_parser(value_parser!(u64))
}

fn sample<'a>(alloc: Global) -> Result<Arg<'a>, AllocError> {
    Arg::new(alloc, "sample")
        .long("sample")
        .value_name("N")
        .help("Estimate the curve from about one key in N, at least 100 keys")
        .action(ArgAction::Set)
        .value_parser(value_parser!(u64).range(1..))
        .conflicts_with("check")?
        .conflicts_with("clock")?
        .conflicts_with("optimum")
}
