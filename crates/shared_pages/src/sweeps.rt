//! All passes of a pool meet.

ghost use Rattle.std.specs.Prelude.{◌≡◌, length, map, All};
ghost use Rattle.smbd_base.specs.PagesFit.{PagesFit};
ghost use Rattle.shared_pages.specs.Rule.{Knows};
ghost use Rattle.shared_pages.specs.Calls.{IsOf, known_by, opening_of};
ghost use Rattle.shared_pages.specs.Meets.{AreAll, HaveOnePast, lists_made};
ghost use Rattle.shared_pages.specs.Sweeps.{HaveMet, Swept, HaveMetFirst, HaveAllMet};

use crate::page_pass::PagePass;
use crate::pages::Pages;
use std::marker::Brand;

fn meet_two(pages: &Pages, one: &mut PagePass, other: &mut PagePass)
    requires { IsOf pages.now one.old × IsOf pages.now other.old }
    ensures { HaveMet pages.now one.old other.old one.new other.new }
{
    pages.meet(one, other);
}

// The first meets each other one.
fn sweep(pages: &Pages, first: &mut PagePass, rest: &mut [PagePass])
    requires first { IsOf pages.now first.old }
    requires rest { All (λ p. IsOf pages.now p) rest.old }
    ensures { Swept pages.now (length rest.old) first.old first.new rest.old rest.new }
{
    for i in 0..rest.len() {
        meet_two(pages, first, &mut rest[i]);
    }
}

// After one sweep the first has seen what any of them saw, and after the next each has.
fn sweep_twice(pages: &Pages, first: &mut PagePass, rest: &mut [PagePass])
    requires first { IsOf pages.now first.old }
    requires rest { All (λ p. IsOf pages.now p) rest.old }
    ensures { HaveMetFirst pages.now first.old first.new rest.old rest.new }
{
    pages.look::<Brand>(first);
    sweep(pages, first, rest);
    sweep(pages, first, rest);
}

/// Each of these passes has then seen all that any of them saw, and has made no more. Where they are all passes of the pool, the
/// lists of the events that they made fit together. All events of all pages have one past, which each of them has seen, and of
/// which each made its entries.
pub fn meet_all(pages: &Pages, passes: &mut [PagePass])
    requires { All (λ p. IsOf pages.now p) passes.old }
    ensures met { HaveAllMet pages.now passes.old passes.new }
    ensures fit { AreAll (opening_of pages.now) (map known_by passes.new) → PagesFit (opening_of pages.now).first (lists_made (map known_by passes.new)) }
    ensures past { HaveOnePast (opening_of pages.now) (map known_by passes.new) }
{
    if let Some((first, rest)) = passes.split_first_mut() {
        sweep_twice(pages, first, rest);
    }
}
