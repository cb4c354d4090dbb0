// What a sheet comes to as C has it: the answer is a struct by value, and its number is 0 where nothing was refused.
// include/taskgraph.h declares it. Assumes that a pointer with a count points to that many elements.
#![tactic(auto)]

ghost use Rattle.std.specs.Prelude.{◌≡◌};
ghost use Rattle.def_room.specs.Room.{room_of};
ghost use Rattle.def_told.specs.Room.{sheet_room};

use def_numbers::ACCEPTED;
use def_room::Room;
use def_told::SheetRoom;
use sheet_room::sheet_room;

// What a sheet comes to, as C has it.
fn told(room: Room) -> SheetRoom
    ensures { result ≡ sheet_room room }
{
    match room {
        Room::Fits { jobs, arcs, steps } => SheetRoom {
            number: ACCEPTED,
            entry: 0,
            place: 0,
            jobs,
            arcs,
            steps,
            at: 0,
        },
        Room::TurnedAway {
            entry,
            number,
            place,
        } => SheetRoom {
            number,
            entry,
            place,
            jobs: 0,
            arcs: 0,
            steps: 0,
            at: 0,
        },
        Room::Unreadable { number, at } => SheetRoom {
            number,
            entry: 0,
            place: 0,
            jobs: 0,
            arcs: 0,
            steps: 0,
            at,
        },
    }
}

// What a sheet comes to, before it touches a graph.
#[unsafe(no_mangle)]
pub extern "C" fn tg_room_of_sheet(sheet: &[u8]) -> SheetRoom
    ensures { result ≡ sheet_room (room_of sheet.now) }
{
    told(sheet_room(sheet))
}
