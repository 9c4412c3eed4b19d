use super::*;

#[test]
fn only_a_stronger_request_takes_the_place_of_the_standing_one(rt: HostRuntime) {
    use Mode::{Fast, Immediate, Smart};
    // standing, asked, answer
    let table = [
        (None, Smart, Some(Smart)),
        (None, Fast, Some(Fast)),
        (None, Immediate, Some(Immediate)),
        (Some(Smart), Smart, None),
        (Some(Smart), Fast, Some(Fast)),
        (Some(Smart), Immediate, Some(Immediate)),
        (Some(Fast), Smart, None),
        (Some(Fast), Fast, None),
        (Some(Fast), Immediate, Some(Immediate)),
        (Some(Immediate), Smart, None),
        (Some(Immediate), Fast, None),
        (Some(Immediate), Immediate, None),
    ];
    for (standing, asked, wanted) in table {
        assert_eq!(rt;
            strengthen(standing, asked),
            wanted,
            "{asked:?} after {standing:?}"
        );
    }
}
