// The standard's lifecycle of a stream: which command may follow which. A stream's state is the last
// command that was ok, by its number here, and begins at "set parameters". A number and no enum: any
// byte of a lent store stands for a state, which no command may follow if it is none of these.
ghost use Rattle.std.specs.Prelude.{◌≡◌};
ghost use Rattle.codes.specs.Life.{permits_of, takes_of};

pub const SET_PARAMETERS: u8 = 0;

pub const PREPARE: u8 = 1;

pub const RELEASE: u8 = 2;

pub const START: u8 = 3;

pub const STOP: u8 = 4;

// A row for each state, and in it a place for each command.
const PERMITTED: [bool; 25] = [
    // Set parameters: itself, prepare.
    true, true, false, false, false,
    // Prepare: set parameters, itself, release, start.
    true, true, true, true, false,
    // Release: set parameters, prepare.
    true, true, false, false, false,
    // Start: stop.
    false, false, false, false, true,
    // Stop: release, start.
    false, false, true, true, false,
];

// A number that is no state permits nothing.
pub fn permits(life: u8, command: u8) -> bool
    ensures { result ≡ permits_of life command }
{
    if 5 <= life {
        return false;
    }
    if 5 <= command {
        return false;
    }
    let at = life as usize * 5 + command as usize;
    PERMITTED[at]
}

// A transfer is taken from a prepared stream and from a started one.
pub fn takes(life: u8) -> bool
    ensures { result ≡ takes_of life }
{
    if life == PREPARE {
        return true;
    }
    life == START
}
