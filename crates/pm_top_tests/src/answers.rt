//! What connections are answered, what the book notes of them, and what they leave in the files.
use crate::play::play;
use std::test::Fail;

/// Connections to a cluster without rows.
const SCENES: &str = r"
# both kinds of encryption
files NEW | CLOSED
$ once --data=folder < SSL_REQUEST GSS_REQUEST PACKET
ends Done 0
sends 1 NO_ENCRYPTION NO_ENCRYPTION GREETING KEY_OF_4
# one kind twice
files NEW | CLOSED
$ once --data=folder < SSL_REQUEST SSL_REQUEST
ends Done 0
sends 1 NO_ENCRYPTION ASKED_TWICE
# a packet of 7 bytes
files NEW | CLOSED
$ once --data=folder < \0\0\0\x07
ends Done 0
sends 1
# a packet of 8 bytes
files NEW | CLOSED
$ once --data=folder < \0\0\0\x08\0\x03\0\0
ends Done 0
sends 1 BAD_LAYOUT
# the longest packet
files NEW | CLOSED
$ once --data=folder < \0\0\x27\x14\0\x03\0\0user\0ann\0p\0 v*9983 \0\0
ends Done 0
sends 1 GREETING KEY_OF_4
# a longer one
files NEW | CLOSED
$ once --data=folder < \0\0\x27\x15\0\x03\0\0
ends Done 0
sends 1
# no user
files NEW | CLOSED
$ once --data=folder < \0\0\0\x09\0\x03\0\0\0
ends Done 0
sends 1 NO_USER
# queries of nothing
files NEW | CLOSED
$ once --data=folder < PACKET SEMICOLON NOTHING
ends Done 0
sends 1 GREETING KEY_OF_4 EMPTY EMPTY
# an error undoes its query
files NEW | CLOSED
$ once --data=folder < PACKET INSERT_TWICE COUNT
ends Done 0
sends 1 GREETING KEY_OF_4 INSERTED_ONCE NO_ROWS
# the greatest key, one above it, and the least
files NEW | CLOSED
$ once --data=folder < PACKET INSERT_GREATEST INSERT_BEYOND INSERT_LEAST
ends Done 0
sends 1 GREETING KEY_OF_4 INSERTED OUT_OF_RANGE INSERTED
# an end in the middle of a packet
files NEW | CLOSED
$ once --data=folder < \0\0\0\x12\0\x03\0
ends Done 0
sends 1
# an end in the middle of a query
files NEW | CLOSED
$ once --data=folder < PACKET Q\0\0\0\x27INSER
ends Done 0
sends 1 GREETING KEY_OF_4
# psql
files NEW | CLOSED
$ once --data=folder < PSQL_PACKET PSQL_INSERT PSQL_SELECT TERMINATE
ends Done 0
sends 1 GREETING KEY_OF_4 INSERTED COLUMNS ITS FOUND
# a query that is too long
files NEW | CLOSED
$ once --data=folder < PACKET Q\0\x01\0\x06 INSERT_SEVEN
ends Done 0
sends 1 GREETING KEY_OF_4 LONG_QUERY
# a message of the extended protocol
files NEW | CLOSED
$ once --data=folder < PACKET P\0\0\0\x08\0\0\0\0 INSERT_SEVEN
ends Done 0
sends 1 GREETING KEY_OF_4 EXTENDED
# a message of no type
files NEW | CLOSED
$ once --data=folder < PACKET z
ends Done 0
sends 1 GREETING KEY_OF_4 UNKNOWN_TYPE
# a row
files NEW | CLOSED
$ once --data=folder < PACKET INSERT_SEVEN SELECT_SEVEN TERMINATE
ends Done 0
says PLAIN
sends 1 GREETING KEY_OF_4 INSERTED COLUMNS SEVEN FOUND
book STARTED ATTACHED PUTS_SEVEN RELEASED_AT_14 FINDS_SEVEN RELEASED_AT_14 DETACHED CLOSE
a ONE_ROW_CLOSED
b BASE_OF_ONE
# an insert, the same key again, and another connection
files NEW | CLOSED
$ once --data=folder < PACKET INSERT_SEVEN INSERT_OTHER SELECT_SEVEN TERMINATE SELECT_EIGHT & PACKET INSERT_EIGHT
ends Done 0
says PLAIN
sends 1 GREETING KEY_OF_4 INSERTED DUPLICATE COLUMNS SEVEN FOUND
sends 2 GREETING KEY_OF_5 INSERTED
book STARTED ATTACHED PUTS_SEVEN RELEASED_AT_14 REFUSES_OTHER RELEASED_AT_14 FINDS_SEVEN RELEASED_AT_14 DETACHED NEXT_ATTACHED NEXT_PUTS_EIGHT NEXT_RELEASED_AT_18 NEXT_DETACHED CLOSE
a CLOSED HEADER OPEN PUT_SEVEN OPEN PUT_EIGHT CLOSED
b OPEN SECOND_HEADER TWO_COMMITS ROW_SEVEN ROW_EIGHT CLOSED
# a key without a row
files NEW | CLOSED
$ once --data=folder < PACKET SELECT_EIGHT
ends Done 0
says PLAIN
sends 1 GREETING KEY_OF_4 COLUMNS ABSENT
book STARTED ATTACHED FINDS_NO_EIGHT RELEASED_AT_10 DETACHED CLOSE
a CLOSED HEADER CLOSED
b BASE_OF_NONE
# a connection that sends nothing
files NEW | CLOSED
$ once --data=folder < ..0
ends Done 0
says PLAIN
sends 1
links 1
book STARTED CLOSE
a CLOSED HEADER CLOSED
b BASE_OF_NONE
# no connection
files NEW | CLOSED
$ once --data=folder
ends Done 0
says PLAIN
links 0
book STARTED CLOSE
a CLOSED HEADER CLOSED
b BASE_OF_NONE
# two connections, one after another, and the next server
files NEW | CLOSED
$ once --data=folder < PACKET INSERT_SEVEN TERMINATE & PACKET SELECT_SEVEN INSERT_EIGHT TERMINATE
ends Done 0
says PLAIN
sends 1 GREETING KEY_OF_4 INSERTED
sends 2 GREETING KEY_OF_5 COLUMNS SEVEN FOUND INSERTED
links 2
$ once --data=folder < PACKET SELECT_SEVEN SELECT_EIGHT TERMINATE
ends Done 0
says PLAIN
sends 1 GREETING KEY_OF_4 COLUMNS SEVEN FOUND COLUMNS EIGHT FOUND";

#[test]
fn connections_get_their_answers(rt: HostRuntime) -> Result<(), Fail> {
    play(rt, rt.alloc(), SCENES)
}
