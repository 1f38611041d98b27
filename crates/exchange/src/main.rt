// The program `exchange`: reads the lists of a year, does the exchange, and prints what everybody gets.
#![tactic(auto)]

mod options;
mod output;

ghost use Rattle.text.specs.Report.{report_of};
ghost use Rattle.std.specs.Prelude.{◌≡◌, IfOk, string_bytes};

use console::{Ended, MOST_LISTS, failed, read_input, refused};
use lists::reading::MOST_TRADERS;
use lists::year::Year;
use options::{Options, read_options};
use output::write_whole;
use papers::splitting::Papers;
use papers::writing::{MOST_PAPER, write_paper};
use rounds::running::Exchanged;
use sheet::accepted::AcceptedSheet;
use sheet::exchanging::exchange;
use std::alloc::{AllocError, Global};
use text::pages::push_page;
use text::report::push_report;

// The bytes of a year, and what the exchange has left in its slices, cut to the number of traders.
#[derive(Drop)]
struct Done {
    bytes: Vec<u8>,
    exchanged: Exchanged,
    results: Vec<u16>,
    sheet: Vec<u8>,
}

// Does the exchange, or tells the refusal; the lent slices have room for as many traders as there can be.
fn exchange_year(rt: &HostRuntime, bytes: Vec<u8>) -> Result<Done, Ended> {
    let most = MOST_TRADERS as usize;
    let mut results = vec![in rt.alloc(); 0u16; most]?;
    let mut sheet = vec![in rt.alloc(); 0u8; 4 * most]?;
    let mut work = vec![in rt.alloc(); 0u16; 3 * most]?;
    let exchanged = exchange(&bytes, &mut results, &mut sheet, &mut work).or_else(|refusal| refused(
        rt, &refusal,
    ))?;
    results.truncate(exchanged.traders as usize);
    sheet.truncate(4 * exchanged.traders as usize);
    Ok(Done {
        bytes,
        exchanged,
        results,
        sheet,
    })
}

// The whole report, so that it is written at once.
fn report(heap: Global, done: &Done) -> Result<String, AllocError>
    ensures { IfOk result (λ text. string_bytes text ≡ report_of done.now.exchanged.rounds done.now.results.items) }
{
    let mut text = String::new(heap);
    push_report(&mut text, done.exchanged.rounds, &done.results)?;
    Ok(text)
}

// The papers of all traders, one after another, in the order of their numbers.
fn all_papers(rt: &HostRuntime, done: &Done) -> Result<Vec<u8>, Ended> {
    // by `match`: a closure may not answer what borrows
    let year = match Year::read(&done.bytes) {
        Ok(year) => year,
        Err(refusal) => return refused(rt, &refusal),
    };
    let sheet = match AcceptedSheet::check(&year, &done.sheet) {
        Ok(sheet) => sheet,
        Err(refusal) => return refused(rt, &refusal),
    };
    let mut papers = Vec::new(rt.alloc());
    let mut out = vec![in rt.alloc(); 0u8; MOST_PAPER]?;
    for trader in 0..year.traders() {
        let size = write_paper(&sheet, trader, &mut out).or_else(|refusal| refused(rt, &refusal))?;
        papers.extend_from_slice(out.get(..size).unwrap_or(&[]))?;
    }
    Ok(papers)
}

// A printed page for each of n papers that stand one after another, with a form feed between pages.
fn all_pages(heap: Global, papers: &[u8], n: u16) -> Result<String, AllocError> {
    let mut text = String::new(heap);
    let mut papers = Papers::of(papers);
    for trader in 0..n {
        if trader > 0 {
            text.push('\u{c}')?;
        }
        push_page(&mut text, papers.next_paper())?;
    }
    Ok(text)
}

// Writes the files that were asked for.
fn write_files(rt: &HostRuntime, options: &Options, done: &Done) -> Result<(), Ended> {
    if let Some(name) = &options.sheet {
        write_whole(rt, name, &done.sheet)?;
    }
    if options.paper_bytes.is_none() && options.pages.is_none() {
        return Ok(());
    }
    let papers = all_papers(rt, done)?;
    if let Some(name) = &options.paper_bytes {
        write_whole(rt, name, &papers)?;
    }
    if let Some(name) = &options.pages {
        let pages = all_pages(rt.alloc(), &papers, done.exchanged.traders)?;
        write_whole(rt, name, pages.as_bytes())?;
    }
    Ok(())
}

fn run(rt: &HostRuntime, options: &Options) -> Result<(), Ended> {
    let name = options.lists.as_deref().unwrap_or("-");
    let bytes = read_input(rt, name, MOST_LISTS).or_else(|e| failed(rt, "exchange", name, e))?;
    let done = exchange_year(rt, bytes)?;
    write_files(rt, options, &done)?;
    let text = report(rt.alloc(), &done)?;
    print!(rt; "{text}")?;
    Ok(())
}

fn main(rt: HostRuntime) -> Result<(), Ended> {
    match read_options(&rt)? {
        Some(options) => run(&rt, &options),
        None => Ok(()),
    }
}
