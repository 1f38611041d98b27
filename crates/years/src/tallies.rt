// What is counted of the years tried, and the table of it.
use std::io;
use std::num::Saturating;

type Count = Saturating<u64>;

#[derive(Clone, Copy, Default)]
pub struct Tally {
    pub years: Count,
    pub years_refused: Count,
    pub unlike_worked: Count,
    pub traders: Count,
    pub rounds: Count,
    pub sheets_accepted: Count,
    pub rings_late: Count,
    pub papers_accepted: Count,
    pub groups_better: Count,
    pub lists_tried: Count,
    pub gains: Count,
    pub damaged_accepted: Count,
    pub damaged_refused: Count,
    pub opinions_differ: Count,
}

// Prints the table, a column for each tally and one for all; a 0 in brackets says that there must be none.
pub(crate) fn print_table(rt: &HostRuntime, tallies: &[Tally]) -> io::Result<()> {
    print_heads(rt, tallies.len())?;
    print_line(rt, "years", tallies, |t| t.years)?;
    print_line(rt, "years refused (0)", tallies, |t| t.years_refused)?;
    print_line(rt, "not as worked out (0)", tallies, |t| t.unlike_worked)?;
    print_line(rt, "traders", tallies, |t| t.traders)?;
    print_line(rt, "rounds", tallies, |t| t.rounds)?;
    print_line(rt, "sheets accepted", tallies, |t| t.sheets_accepted)?;
    print_line(rt, "out a round too late (0)", tallies, |t| t.rings_late)?;
    print_line(rt, "papers accepted", tallies, |t| t.papers_accepted)?;
    print_line(
        rt,
        "groups that do better (0)",
        tallies,
        |t| t.groups_better,
    )?;
    print_line(rt, "other lists tried", tallies, |t| t.lists_tried)?;
    print_line(rt, "gains by another list (0)", tallies, |t| t.gains)?;
    print_line(
        rt,
        "damaged sheets accepted",
        tallies,
        |t| t.damaged_accepted,
    )?;
    print_line(rt, "damaged sheets refused", tallies, |t| t.damaged_refused)?;
    print_line(
        rt,
        "second opinions differ (0)",
        tallies,
        |t| t.opinions_differ,
    )
}

// What stands above the columns: the worked years, the random ones by their number of traders, and all.
fn print_heads(rt: &HostRuntime, columns: usize) -> io::Result<()> {
    print!(rt; "{:<26}{:>8}", "", "worked")?;
    for traders in 1..columns {
        print!(rt; "{traders:>8}")?;
    }
    println!(rt; "{:>8}", "all")
}

fn print_line<F: Fn(&Tally) -> Count>(
    rt: &HostRuntime,
    name: &str,
    tallies: &[Tally],
    counted: F,
) -> io::Result<()>
    requires { F.IsAlwaysCallable counted }
{
    print!(rt; "{name:<26}")?;
    for tally in tallies {
        print!(rt; "{:>8}", counted(tally))?;
    }
    let all: Count = tallies.iter().map(|tally| counted(tally)).sum();
    println!(rt; "{all:>8}")
}
