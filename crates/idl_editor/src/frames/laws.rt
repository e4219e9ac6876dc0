//! What holds of messages, whoever reads them. Nothing here runs.

ghost use Rattle.std.specs.Prelude.{◌≡◌, ◌≤◌, ◌++◌, ℕ, List, length};
ghost use Rattle.idl_editor.specs.frames.Message.{AreBodies, HasNoMessage, IsHead, IsMessage, longest_body};
ghost use Rattle.idl_editor.specs.frames.Written.{message_of};

/// Bytes begin with one head at most, and it announces one length.
pub fn heads()
    ensures { (head next : List ℕ) (m n : ℕ) (left rest : List ℕ) → IsHead head m → IsHead next n
        → head ++ left ≡ next ++ rest → (head ≡ next) × (m ≡ n) × (left ≡ rest) }
{}

/// An input has one list of bodies up to where no message follows, in whatever pieces it comes.
pub fn bodies_of_an_input()
    ensures { (bodies others : List (List ℕ)) (input rest left : List ℕ)
        → AreBodies bodies input rest → AreBodies others input left
        → HasNoMessage rest → HasNoMessage left → (bodies ≡ others) × (rest ≡ left) }
{}

/// What is written for a body that may be is its message, and so reads back.
pub fn read_back()
    ensures { (body : List ℕ) → length body ≤ longest_body → IsMessage (message_of body) body }
{}
