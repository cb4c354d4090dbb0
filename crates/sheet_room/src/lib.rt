// What a sheet comes to: its jobs, arcs and the steps of a full run, or the first entry turned away, or where it cannot
// be read, in one pass over the bytes and with room for names alone. Follows docs/RULES.md, "The room of a sheet".
#![tactic(auto)]

mod table;

ghost use Rattle.std.specs.Prelude.{◌≡◌, ◌+◌, ◌*◌, ◌-◌, ◌≤◌, length};
ghost use Rattle.def_numbers.specs.Numbers.{most_jobs, most_arcs};
ghost use Rattle.def_sheets.specs.Decode.{decode_from};
ghost use Rattle.def_room.specs.Room.{judged, room_of};
ghost use Rattle.sheet_room.specs.Verdicts.{arguments, verdict_of, readable, room_or_unreadable};

use def_numbers::{
    MOST_ARCS, MOST_NAMES, NAME_PRESENT, TABLES_FULL, UNKNOWN_NAME, WRONG_ARGUMENTS,
};
use def_room::Room;
use def_sheets::{Numbers, Refusal};
use entry_scan::{NAMES_FROM, scan};
use graph_arguments::arguments_wrong;
use sheet_reader::store_names;
use table::Names;

// The places of an entry's list.
const LIST_PLACES: usize = MOST_NAMES as usize;

// Why an entry is turned away: by this number, at this place of its list.
#[derive(Clone, Copy)]
struct Refused {
    number: u32,
    place: u32,
}

// An entry, after accepted ones of these names whose lists have `arcs` names together: "5 by its arguments; else 6 with
// the first place whose name no job has; else 7 if its own name is there; else 8 if R jobs are there or the lists of
// all jobs and its own together have over A names; else accepted".
fn judge(
    names: &Names,
    arcs: u32,
    numbers: &Numbers,
    list: &[u32; LIST_PLACES],
) -> Result<(), Refused>
    requires { arcs ≤ most_arcs }
    ensures { result ≡ verdict_of
        (judged most_jobs most_arcs names.now arcs (arguments numbers.now list.now)) }
{
    let Numbers {
        name,
        count,
        class,
        grower,
    } = *numbers;
    if arguments_wrong(name, list, count, class, grower) {
        return Err(Refused {
            number: WRONG_ARGUMENTS,
            place: 0,
        });
    }
    for i in 0..count {
        if !names.known(list[i as usize]) {
            return Err(Refused {
                number: UNKNOWN_NAME,
                place: i,
            });
        }
    }
    if names.known(name) {
        return Err(Refused {
            number: NAME_PRESENT,
            place: 0,
        });
    }
    if names.is_full() | (MOST_ARCS < arcs + count) {
        return Err(Refused {
            number: TABLES_FULL,
            place: 0,
        });
    }
    Ok(())
}

// Reads a sheet on from an offset, and tells where it cannot be read.
fn read_on(sheet: &[u8], from: usize) -> Result<(), Refusal>
    ensures { result ≡ readable (decode_from (length sheet.now - from) sheet.now from) }
{
    let mut at = from;
    while let Some(scanned) = scan(sheet, at)? {
        at = scanned.next;
    }
    Ok(())
}

// What a sheet that can be read comes to. Where an entry is turned away, the rest of the sheet is only read. A full run
// takes four steps for a job and three for an arc.
fn room(sheet: &[u8]) -> Result<Room, Refusal>
    ensures { room_or_unreadable result ≡ room_of sheet.now }
{
    let mut names = Names::new();
    let mut list = [0; LIST_PLACES];
    let mut arcs = 0;
    let mut at = 0;
    while let Some(scanned) = scan(sheet, at)? {
        let numbers = scanned.numbers;
        store_names(sheet, at + NAMES_FROM, &mut list[..numbers.count as usize]);
        if let Err(Refused { number, place }) = judge(&names, arcs, &numbers, &list) {
            read_on(sheet, scanned.next)?;
            return Ok(Room::TurnedAway {
                entry: names.len() as u32,
                number,
                place,
            });
        }
        names.enter(numbers.name);
        arcs += numbers.count;
        at = scanned.next;
    }
    let jobs = names.len() as u32;
    Ok(Room::Fits {
        jobs,
        arcs,
        steps: 4 * jobs + 3 * arcs,
    })
}

// What a sheet comes to, for every sheet. The names and their table, 32 KB, stand on the stack.
pub fn sheet_room(sheet: &[u8]) -> Room
    ensures { result ≡ room_of sheet.now }
{
    match room(sheet) {
        Ok(room) => room,
        Err(Refusal { number, at }) => Room::Unreadable { number, at },
    }
}
