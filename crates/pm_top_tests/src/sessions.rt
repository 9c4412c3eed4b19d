//! Sessions: one, two side by side, more than may be, and statements that are cancelled.
use crate::play::play;
use std::test::Fail;

const SCENES: &str = r"
# one session, over as many threads as twenty need
files NEW | CLOSED
threads 47
link @log>READY : PACKET INSERT_SEVEN SELECT_SEVEN TERMINATE
$ serve --data=folder --port=5432 --max-connections=20
ends Done 0
says READY SMART DOWN
links 1
sends 1 GREETING KEY_OF_4 INSERTED COLUMNS SEVEN FOUND
a CLOSED HEADER OPEN PUT_SEVEN CLOSED
b BASE_OF_ONE
# two side by side: the second begins once the first is greeted, and the first asks once the second is answered
files NEW | CLOSED
link @log>READY : PACKET @2>GREETING,KEY_OF_5,INSERTED SELECT_SEVEN TERMINATE
link : @1>GREETING,KEY_OF_4 PACKET INSERT_SEVEN TERMINATE
$ serve --data=folder --port=5432 --max-connections=2
ends Done 0
says READY SMART DOWN
links 2
sends 1 GREETING KEY_OF_4 COLUMNS SEVEN FOUND
sends 2 GREETING KEY_OF_5 INSERTED
# one may be: the third is refused when it comes, and the second at the gate, behind the third
files NEW | CLOSED
threads 9
link @log>READY : PACKET @2>TOO_MANY TERMINATE
link @1>GREETING,KEY_OF_4 : @3>TOO_MANY PACKET
link : PACKET
$ serve --data=folder --port=5432 --max-connections=1
ends Done 0
says READY SMART DOWN
links 3
sends 1 GREETING KEY_OF_4
sends 2 TOO_MANY
sends 3 TOO_MANY
notes Accepted { pid: 4, decision: Ok } ; Accepted { pid: 5, decision: Ok } ; Accepted { pid: 6, decision: TooMany }
# a packet without a user, while the server starts up and behind that
files NEW | CLOSED
read @1>NO_USER
link : NOBODY
link @log>READY : NOBODY
$ serve --data=folder --port=5432 --max-connections=2
ends Done 0
says READY SMART DOWN
links 2
sends 1 NO_USER
sends 2 NO_USER
# four are refused at a time: the next one comes once one of these has ended
files NEW | CLOSED
link @log>READY : PACKET @2>TOO_MANY TERMINATE
link @1>GREETING,KEY_OF_4 : @7>TOO_MANY PACKET
link : @7>TOO_MANY PACKET
link : @7>TOO_MANY PACKET
link : @7>TOO_MANY PACKET
link : @lines>20 PACKET
link : PACKET
20 lines @1>GREETING,KEY_OF_4 : one turn
$ serve --data=folder --port=5432 --max-connections=1
ends Done 0
links 7
sends 2 TOO_MANY
sends 3 TOO_MANY
sends 4 TOO_MANY
sends 5 TOO_MANY
sends 6 TOO_MANY
sends 7 TOO_MANY
notes Accepted { pid: 9, decision: TooMany } ; Exited { pid: 9, kind: DeadEnd, status: Code(1), was_active: false, at: 0 } ; Accepted { pid: 10, decision: TooMany }
# a statement isn't cancelled by another key, as the one by a seed of zeros
files NEW | CLOSED
time runs
link @log>READY : PACKET INSERT_SEVEN SLEEP_ON TERMINATE
link @1>GREETING,KEY_OF_4,INSERTED : CANCEL_BY_ZEROS
$ serve --data=folder --port=5432 --max-connections=2
ends Done 0
links 2
sends 1 GREETING KEY_OF_4 INSERTED SLEPT
sends 2
# it is by its own: the second and third cancel stand there for the one that comes in front of the statement
files NEW | CLOSED
time runs
link @log>READY : PACKET INSERT_SEVEN SLEEP TERMINATE
link @1>GREETING,KEY_OF_4,INSERTED : CANCEL_OF_4
link : CANCEL_OF_4
link : CANCEL_OF_4
$ serve --data=folder --port=5432 --max-connections=2
ends Done 0
links 4
sends 1 GREETING KEY_OF_4 INSERTED CANCELED
sends 2
sends 3
sends 4";

#[test]
fn sessions_are_served(rt: HostRuntime) -> Result<(), Fail> {
    play(rt, rt.alloc(), SCENES)
}
