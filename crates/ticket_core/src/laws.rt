//! What holds after every list of events.
//!
//! Each call of a core is one event, by its contract. So what is said here of events is said of
//! every core, whatever calls were made and in whatever order.

ghost use Rattle.std.specs.Prelude.{◌≡◌, ◌≤◌, ◌↔◌, ℕ, List, None, length};
ghost use Rattle.ticket_core.specs.declared.shape.Shape.{Shape};
ghost use Rattle.ticket_core.specs.State.{Meaning, State, opening, sender_at, place_of, outstanding};
ghost use Rattle.ticket_core.specs.Events.{Event, Can};
ghost use Rattle.ticket_core.specs.Refusals.{refusal, IsOfShape};
ghost use Rattle.ticket_core.specs.Runs.{Run, Reaches, IsRight, times_finished, once_finished, HandsAgree};
ghost use Rattle.ticket_core.specs.Runs.{PlacesAgree, HasEnded};

/// Whatever events happened to a core of whatever shape and key, one after the other:
/// - `right`: what each sender received is no longer than what it asked, and holds the meaning of
///   each asked query at its number;
/// - `finished_once`: each number that is answered or received was finished by just one of the
///   events, and every other by none;
/// - `hands_agree`: a worker holds a number exactly where that number's place says so;
/// - `places_agree`: the numbers that are received are those below the next one, and those without
///   a place are those that weren't asked;
/// - `limits`: no sender asked more than the most, or has more outstanding than the window;
/// - `ended_stays`: no later event changes a sender that is closed and has received everything.
pub fn law_of_runs()
    ensures right { (meaning : Meaning) (shape : Shape) (key : List ℕ) (events : List Event) (state : State)
        → Reaches meaning shape key events state → (s : ℕ) → IsRight meaning key (sender_at state s) }
    ensures finished_once { (meaning : Meaning) (shape : Shape) (key : List ℕ) (events : List Event)
        (state : State) → Reaches meaning shape key events state → (s n : ℕ)
        → times_finished meaning (opening shape key) events s n ≡ once_finished (place_of (sender_at state s) n) }
    ensures hands_agree { (meaning : Meaning) (shape : Shape) (key : List ℕ) (events : List Event) (state : State)
        → Reaches meaning shape key events state → HandsAgree state }
    ensures places_agree { (meaning : Meaning) (shape : Shape) (key : List ℕ) (events : List Event) (state : State)
        → Reaches meaning shape key events state → (s : ℕ) → PlacesAgree (sender_at state s) }
    ensures limits { (meaning : Meaning) (shape : Shape) (key : List ℕ) (events : List Event) (state : State)
        → Reaches meaning shape key events state → (s : ℕ)
        → (length (sender_at state s).asked ≤ shape.most) × (outstanding (sender_at state s) ≤ shape.window) }
    ensures ended_stays { (meaning : Meaning) (shape : Shape) (key : List ℕ) (events later : List Event)
        (state last : State) → Reaches meaning shape key events state → Run meaning state later last → (s : ℕ)
        → HasEnded (sender_at state s) → sender_at last s ≡ sender_at state s }
{}

/// Whatever events happened, an event of the shape's senders and workers can happen next exactly
/// where no condition refuses it.
pub fn law_of_refusals()
    ensures allowed { (meaning : Meaning) (shape : Shape) (key : List ℕ) (events : List Event) (state : State)
        → Reaches meaning shape key events state → (event : Event) → IsOfShape event state
        → (Can event state ↔ (refusal event state ≡ None)) }
{}
