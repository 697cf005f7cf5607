//! Inspects the store on a disk.

ghost use Rattle.std.specs.Prelude.{◌≡◌, false, true, IfErr, IfOk, OnOk, string_bytes};
ghost use Rattle.coord_commands.specs.Ending.{OutputCutShort, PrintsOne};
ghost use Rattle.coord_commands.specs.Folders.{bytes_of, reads};
ghost use Rattle.coord_commands.specs.Inspection.{Checks, IsCheckedLine, IsLegalLine, IsOfOpening, IsShown, IsViolatedLine, ShowsStore};
ghost use Rattle.coord_commands.specs.Printed.{shown};

use crate::fault::Fault;
use crate::folder::Folder;
use crate::lines::print;
use crate::status::report;
use crate::streams::Streams;
use coord_disk::Disk;
use coord_store::{Store, StoreFault};
use coord_view::{print_view, view_of};
use coord_world::World;
use std::alloc::{AllocError, Global};
use std::io::{Read, Write};

/// Checks the store on the named disk. Prints that the store is legal, with its number of steps, or
/// else the first predicate that its snapshot violates. Returns the exit status, which is 1 for a
/// violation. The disk is opened for reading only.
pub fn check_in<F: Folder, R: Read, W: Write, E: Write>(
    alloc: Global,
    folder: &F,
    file: &str,
    streams: &mut Streams<R, W, E>,
) -> u8
    ensures ended { Checks (reads (F.holds folder.now file.now)) result
        streams.old.known streams.new.known }
    ensures unread { streams.new.input ≡ streams.old.input }
{
    match check_at(alloc, folder, file, &mut streams.output) {
        Ok(true) => 0,
        Ok(false) => 1,
        Err(fault) => report(Err(fault), &mut streams.errors),
    }
}

fn check_at<F: Folder, W: Write>(
    alloc: Global,
    folder: &F,
    file: &str,
    output: &mut W,
) -> Result<bool, Fault>
    ensures legal { IfOk result (λ legal. legal ≡ true →
        PrintsOne (IsLegalLine (reads (F.holds folder.now file.now))) (W.contents output.old)
        (W.contents output.new)) }
    ensures violated { IfOk result (λ legal. legal ≡ false →
        PrintsOne (IsViolatedLine (reads (F.holds folder.now file.now))) (W.contents output.old)
        (W.contents output.new)) }
    ensures fault { IfErr result (IsOfOpening (reads (F.holds folder.now file.now))) }
    ensures cut { IfErr result (OutputCutShort (IsCheckedLine (reads (F.holds folder.now file.now)))
        (W.contents output.old) (W.contents output.new)) }
{
    let disk = folder.open_to_read(file)?;
    check_store(alloc, disk, output)
}

/// Prints the nodes and links of the store on the named disk, and returns the exit status. The disk
/// is opened for reading only.
pub fn show_in<F: Folder, R: Read, W: Write, E: Write>(
    alloc: Global,
    folder: &F,
    file: &str,
    streams: &mut Streams<R, W, E>,
) -> u8
    ensures ended { ShowsStore (reads (F.holds folder.now file.now)) result
        streams.old.known streams.new.known }
    ensures unread { streams.new.input ≡ streams.old.input }
{
    report(
        show_at(alloc, folder, file, &mut streams.output),
        &mut streams.errors,
    )
}

fn show_at<F: Folder, W: Write>(
    alloc: Global,
    folder: &F,
    file: &str,
    output: &mut W,
) -> Result<(), Fault>
    ensures shown { OnOk result (PrintsOne (IsShown (reads (F.holds folder.now file.now)))
        (W.contents output.old) (W.contents output.new)) }
    ensures fault { IfErr result (IsOfOpening (reads (F.holds folder.now file.now))) }
    ensures cut { IfErr result (OutputCutShort (IsShown (reads (F.holds folder.now file.now)))
        (W.contents output.old) (W.contents output.new)) }
{
    let disk = folder.open_to_read(file)?;
    show_store(alloc, disk, output)
}

/// Opens the store on a disk. Prints that the store is legal, with its number of steps, or else the
/// first predicate that its snapshot violates. Returns whether the store is legal.
pub fn check_store<D: Disk, W: Write>(alloc: Global, disk: D, output: &mut W) -> Result<bool, Fault>
    ensures legal { IfOk result (λ legal. legal ≡ true →
        PrintsOne (IsLegalLine (bytes_of D.model disk)) (W.contents output.old)
        (W.contents output.new)) }
    ensures violated { IfOk result (λ legal. legal ≡ false →
        PrintsOne (IsViolatedLine (bytes_of D.model disk)) (W.contents output.old)
        (W.contents output.new)) }
    ensures fault { IfErr result (IsOfOpening (bytes_of D.model disk)) }
    ensures cut { IfErr result (OutputCutShort (IsCheckedLine (bytes_of D.model disk))
        (W.contents output.old) (W.contents output.new)) }
{
    match Store::open(alloc, disk) {
        Ok(store) => {
            store.lemma_images_give_world();
            let count = store.world().count();
            drop(store);
            let text = format!(in alloc; "legal {count}\n")?;
            print(output, &text)?;
            Ok(true)
        }
        Err((fault, disk)) => {
            drop(disk);
            match fault {
                StoreFault::Violated(violation) => {
                    let text = format!(in alloc; "violated {violation}\n")?;
                    print(output, &text)?;
                    Ok(false)
                }
                other => Err(Fault::Store(other)),
            }
        }
    }
}

/// Opens the store on a disk, and prints its nodes and links.
pub fn show_store<D: Disk, W: Write>(alloc: Global, disk: D, output: &mut W) -> Result<(), Fault>
    ensures shown { OnOk result (PrintsOne (IsShown (bytes_of D.model disk))
        (W.contents output.old) (W.contents output.new)) }
    ensures fault { IfErr result (IsOfOpening (bytes_of D.model disk)) }
    ensures cut { IfErr result (OutputCutShort (IsShown (bytes_of D.model disk))
        (W.contents output.old) (W.contents output.new)) }
{
    match Store::open(alloc, disk) {
        Ok(store) => {
            let made = shown_text(alloc, store.world());
            drop(store);
            let text = made?;
            print(output, &text)
        }
        Err((fault, disk)) => {
            drop(disk);
            Err(Fault::Store(fault))
        }
    }
}

/// Returns the lines that show the world of a store.
fn shown_text(alloc: Global, world: &World) -> Result<String, AllocError>
    ensures { IfOk result (λ text. string_bytes text ≡ shown world.now) }
{
    // While a store is not being served, all its accepted steps are settled.
    let view = view_of(alloc, world.count(), world)?;
    let mut text = String::new(alloc);
    print_view(&mut text, &view)?;
    Ok(text)
}
