//! The desk of an office over HTTP, in definitions: what the bytes of a connection ask for, what the desk shows of the tables, and what it
//! replies, byte for byte, with the tables afterwards. The definitions are in `specs/`.
//!
//! The functions have no body: their contracts are worked examples, no promises.
#![tactic(auto)]

ghost use Rattle.std.specs.Prelude.{◌≡◌, ◌∷◌, [], codes, length};
ghost use Rattle.define_bundles.specs.BundleText.{bundle_spelling};
ghost use Rattle.define_offices.specs.WorkedOffice.{first_bundle, with_rows};
ghost use Rattle.define_desk.specs.Requests.{AreAsking, Asks, NoRequest, TooLarge, asking_by};
ghost use Rattle.define_desk.specs.Replies.{bad_request, not_allowed, not_found, out_of_memory, reply_text, told, told_text, too_large, too_late, unavailable, unknown_key};
ghost use Rattle.define_desk.specs.Desk.{leaving, served, served_by};
ghost use Rattle.define_desk.specs.WorkedDesk.{a_withdrew, asked_with, drawn_again, drawn_in_ten, drawn_round, field, get, get_own, get_seat, others_differ, own_bytes, own_head, own_told, post_with, post_withdrawal, sealed_round, second_round, solved_round, third_round};

/// A volunteer asks with a key. The reply is the same if all other rows differ.
pub fn worked_volunteers()
    ensures open { reply_text (served with_rows (get_own (codes "abc"))).reply ≡ own_told }
    ensures others { served others_differ (get_own (codes "abc")) ≡ leaving others_differ (served with_rows (get_own (codes "abc"))).reply }
    ensures sealed { (served sealed_round (get_own (codes "k2"))).reply
        ≡ told (codes "{\"chance\":\"1/2\",\"drawn\":null,\"id\":\"b\",\"phase\":\"Sealed\",\"round\":1,\"withdrawn\":false}") }
    ensures in_ten { (served drawn_in_ten (get_own (codes "k2"))).reply
        ≡ told (codes "{\"chance\":\"1/2\",\"drawn\":true,\"id\":\"b\",\"phase\":\"Drawn\",\"round\":1,\"withdrawn\":false}") }
    ensures drawn { (served drawn_round (get_own (codes "abc"))).reply
        ≡ told (codes "{\"chance\":\"1/2\",\"drawn\":true,\"id\":\"a\",\"phase\":\"Drawn\",\"round\":1,\"withdrawn\":false}") }
    ensures second { (served second_round (get_own (codes "k2"))).reply
        ≡ told (codes "{\"chance\":null,\"drawn\":null,\"id\":\"b\",\"phase\":\"Open\",\"round\":2,\"withdrawn\":false}") }
{}

/// A volunteer asks for the seat: in round 1 nobody has one, and later the members of the round before who didn't drop out. The reply is the
/// same after a withdrawal, and if all other rows differ.
pub fn worked_seats()
    ensures open { (served with_rows (get_seat (codes "abc"))).reply ≡ told (codes "{\"dropped\":[],\"id\":\"a\",\"seated\":false}") }
    ensures others { served others_differ (get_seat (codes "abc")) ≡ leaving others_differ (served with_rows (get_seat (codes "abc"))).reply }
    ensures withdrawn { served a_withdrew (get_seat (codes "abc")) ≡ leaving a_withdrew (served with_rows (get_seat (codes "abc"))).reply }
    ensures drawn { (served drawn_round (get_seat (codes "k3"))).reply ≡ told (codes "{\"dropped\":[],\"id\":\"c\",\"seated\":false}") }
    ensures dropped { (served drawn_round (get_seat (codes "abc"))).reply ≡ told (codes "{\"dropped\":[1],\"id\":\"a\",\"seated\":false}") }
    ensures gone { (served second_round (get_seat (codes "abc"))).reply ≡ told (codes "{\"dropped\":[1],\"id\":\"a\",\"seated\":false}") }
    ensures seated { (served second_round (get_seat (codes "k3"))).reply ≡ told (codes "{\"dropped\":[],\"id\":\"c\",\"seated\":true}") }
    ensures undrawn { (served second_round (get_seat (codes "k2"))).reply ≡ told (codes "{\"dropped\":[],\"id\":\"b\",\"seated\":false}") }
    ensures drawn_now { (served drawn_again (get_seat (codes "k2"))).reply ≡ told (codes "{\"dropped\":[],\"id\":\"b\",\"seated\":false}") }
    ensures drops_now { (served drawn_again (get_seat (codes "k3"))).reply ≡ told (codes "{\"dropped\":[2],\"id\":\"c\",\"seated\":true}") }
    ensures third { (served third_round (get_seat (codes "k2"))).reply ≡ told (codes "{\"dropped\":[],\"id\":\"b\",\"seated\":true}") }
    ensures third_gone { (served third_round (get_seat (codes "k3"))).reply ≡ told (codes "{\"dropped\":[2],\"id\":\"c\",\"seated\":false}") }
{}

/// The first withdrawal changes the tables, and the second does not. A withdrawal from a sealed round comes too late, and so does that of
/// somebody who is seated.
pub fn worked_withdrawals()
    ensures first { served with_rows (post_withdrawal (codes "abc"))
        ≡ leaving a_withdrew (told (codes "{\"id\":\"a\",\"withdrawn\":true}")) }
    ensures again { served a_withdrew (post_withdrawal (codes "abc")) ≡ leaving a_withdrew (told (codes "{\"id\":\"a\",\"withdrawn\":true}")) }
    ensures sealed { served sealed_round (post_withdrawal (codes "k2")) ≡ leaving sealed_round too_late }
    ensures seated { served second_round (post_withdrawal (codes "k3")) ≡ leaving second_round too_late }
{}

/// What is public: a bundle once it is sealed, a draw once the round is drawn.
pub fn worked_pages()
    ensures solved { served solved_round (get (codes "/public/bundle/1")) ≡ leaving solved_round not_found }
    ensures sealed { served sealed_round (get (codes "/public/bundle/1")) ≡ leaving sealed_round (told_text (bundle_spelling first_bundle)) }
    ensures size { length (bundle_spelling first_bundle) ≡ 218 }
    ensures zeros { served drawn_round (get (codes "/public/bundle/0001")) ≡ leaving drawn_round (told_text (bundle_spelling first_bundle)) }
    ensures undrawn { served sealed_round (get (codes "/public/draw/1")) ≡ leaving sealed_round not_found }
    ensures drawn { served drawn_round (get (codes "/public/draw/1")) ≡ leaving drawn_round
        (told (codes "{\"digits\":\"0\",\"panel\":[\"a\",\"c\"],\"seal\":\"41f145deb96e63082dd54ce2bcf3dea5bf3bb3cf4f2936371c318b2d1a4355e7\",\"ticket\":\"0\"}")) }
    ensures tickets { served drawn_in_ten (get (codes "/public/draw/1")) ≡ leaving drawn_in_ten
        (told (codes "{\"digits\":\"7\",\"panel\":[\"b\",\"d\"],\"seal\":\"41f145deb96e63082dd54ce2bcf3dea5bf3bb3cf4f2936371c318b2d1a4355e7\",\"ticket\":\"7\",\"tickets\":\"10\"}")) }
{}

/// Requests that are refused: by the path before the method, and by the method before the key.
pub fn worked_refusals()
    ensures nowhere { served with_rows (asked_with (codes "POST") (codes "/nowhere") []) ≡ leaving with_rows not_found }
    ensures no_round { served drawn_round (asked_with (codes "POST") (codes "/public/bundle/2") []) ≡ leaving drawn_round not_found }
    ensures round_zero { served drawn_round (get (codes "/public/bundle/0")) ≡ leaving drawn_round not_found }
    ensures five_digits { served drawn_round (get (codes "/public/bundle/00001")) ≡ leaving drawn_round not_found }
    ensures method { served with_rows (asked_with (codes "POST") (codes "/me") []) ≡ leaving with_rows (not_allowed (codes "GET")) }
    ensures other_method { served with_rows (asked_with (codes "GET") (codes "/me/withdraw") []) ≡ leaving with_rows (not_allowed (codes "POST")) }
    ensures seat_method { served with_rows (asked_with (codes "POST") (codes "/me/seat") []) ≡ leaving with_rows (not_allowed (codes "GET")) }
    ensures seat_no_key { served with_rows (get (codes "/me/seat")) ≡ leaving with_rows unknown_key }
    ensures seat_two_keys { served with_rows (asked_with (codes "GET") (codes "/me/seat") (codes "abc" ∷ codes "abc" ∷ [])) ≡ leaving with_rows unknown_key }
    ensures seat_key { served second_round (get_seat (codes "abd")) ≡ leaving second_round unknown_key }
    ensures no_key { served with_rows (get (codes "/me")) ≡ leaving with_rows unknown_key }
    ensures two_keys { served with_rows (asked_with (codes "GET") (codes "/me") (codes "abc" ∷ codes "abc" ∷ [])) ≡ leaving with_rows unknown_key }
    ensures key { served sealed_round (post_withdrawal (codes "abd")) ≡ leaving sealed_round unknown_key }
    ensures large { served_by with_rows TooLarge ≡ leaving with_rows too_large }
    ensures bad { served_by with_rows NoRequest ≡ leaving with_rows bad_request }
{}

/// What heads ask for, by their fields and by how many bytes follow them.
pub fn worked_heads()
    ensures own { asking_by own_head [] ≡ Asks (get_own (codes "abc")) }
    ensures body { asking_by (post_with (field (codes "content-LENGTH") (codes " 2\t") ∷ field (codes "office-key") (codes "k2") ∷ [])) (codes "{}")
        ≡ Asks (post_withdrawal (codes "k2")) }
    ensures cut { asking_by (post_with (field (codes "Content-Length") (codes "2") ∷ [])) (codes "{") ≡ NoRequest }
    ensures greatest { asking_by (post_with (field (codes "Content-Length") (codes "65536") ∷ [])) [] ≡ NoRequest }
    ensures large { asking_by (post_with (field (codes "Transfer-Encoding") (codes "x") ∷ field (codes "Content-Length") (codes "65537") ∷ [])) [] ≡ TooLarge }
    ensures long { asking_by (post_with (field (codes "Content-Length") (codes "0000000000000000000") ∷ [])) [] ≡ NoRequest }
    ensures twice { asking_by (post_with (field (codes "Content-Length") (codes "0") ∷ field (codes "Content-Length") (codes "0") ∷ [])) [] ≡ NoRequest }
    ensures encoded { asking_by (post_with (field (codes "TRANSFER-encoding") (codes "chunked") ∷ [])) [] ≡ NoRequest }
{}

/// The bytes of a request, and of a request whose head isn't whole.
pub fn worked_bytes()
    ensures whole { AreAsking own_bytes (Asks (get_own (codes "abc"))) }
    ensures cut { AreAsking (codes "GET /me HTTP/1.1\r\nOffice-Key: abc\r\n") NoRequest }
{}

/// The refusals, byte for byte.
pub fn worked_replies()
    ensures bad_request { reply_text bad_request
        ≡ codes "HTTP/1.1 400 Bad Request\r\nContent-Type: application/json\r\nContent-Length: 14\r\nConnection: close\r\n\r\n{\"status\":400}" }
    ensures unknown_key { reply_text unknown_key
        ≡ codes "HTTP/1.1 401 Unauthorized\r\nContent-Type: application/json\r\nWWW-Authenticate: office-key\r\nContent-Length: 14\r\nConnection: close\r\n\r\n{\"status\":401}" }
    ensures not_found { reply_text not_found
        ≡ codes "HTTP/1.1 404 Not Found\r\nContent-Type: application/json\r\nContent-Length: 14\r\nConnection: close\r\n\r\n{\"status\":404}" }
    ensures not_allowed { reply_text (not_allowed (codes "POST"))
        ≡ codes "HTTP/1.1 405 Method Not Allowed\r\nContent-Type: application/json\r\nAllow: POST\r\nContent-Length: 14\r\nConnection: close\r\n\r\n{\"status\":405}" }
    ensures too_late { reply_text too_late
        ≡ codes "HTTP/1.1 409 Conflict\r\nContent-Type: application/json\r\nContent-Length: 14\r\nConnection: close\r\n\r\n{\"status\":409}" }
    ensures too_large { reply_text too_large
        ≡ codes "HTTP/1.1 413 Payload Too Large\r\nContent-Type: application/json\r\nContent-Length: 14\r\nConnection: close\r\n\r\n{\"status\":413}" }
    ensures unavailable { reply_text unavailable
        ≡ codes "HTTP/1.1 503 Service Unavailable\r\nContent-Type: application/json\r\nContent-Length: 14\r\nConnection: close\r\n\r\n{\"status\":503}" }
    ensures out_of_memory { reply_text out_of_memory
        ≡ codes "HTTP/1.1 507 Insufficient Storage\r\nContent-Type: application/json\r\nContent-Length: 14\r\nConnection: close\r\n\r\n{\"status\":507}" }
{}
