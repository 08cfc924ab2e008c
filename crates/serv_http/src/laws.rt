//! Laws of the requests of a stream, for callers that feed one piece after another.

ghost use Rattle.std.specs.Prelude.{◌≡◌, ℕ, ◌<◌, ◌≤◌, ◌==◌, ◌↔◌, ◌++◌, List, length, All, Option, Some, None, false};
ghost use Rattle.std.specs.List.{list_any};
ghost use Rattle.httparse.specs.Grammar.{RequestHead, print_request, ReadsRequest};
ghost use Rattle.svc_types.specs.Requests.{IsQuery};
ghost use Rattle.svc_types.specs.declared.requests.Query.{Query};
ghost use Rattle.serv_http.specs.declared.ask.Ask.{Ask};
ghost use Rattle.serv_http.specs.declared.route.Route.{Route};
ghost use Rattle.serv_http.specs.Heads.{head_limit, line_limit, IsRefused, IsTooLong};
ghost use Rattle.serv_http.specs.Paths.{IsPathOf};
ghost use Rattle.serv_http.specs.Routes.{route_of, route_of_query, path_of_query};
ghost use Rattle.serv_http.specs.Streams.{AsksTo};

/// A stream has one list of requests, and one rest.
pub fn one_list()
    ensures { (xs ys : List Ask) (s : List ℕ) (l k : Option (List ℕ)) → AsksTo s xs l → AsksTo s ys k
        → (xs ≡ ys) × (l ≡ k) }
{}

/// The requests of two pieces are those of the first, and those of its rest with the second:
/// cutting does not matter.
pub fn any_cutting()
    ensures goes_on { (xs ys : List Ask) (s rest more : List ℕ) (left : Option (List ℕ))
        → AsksTo s xs (Some rest) → AsksTo (rest ++ more) ys left → AsksTo (s ++ more) (xs ++ ys) left }
    ensures over { (xs : List Ask) (s more : List ℕ) → AsksTo s xs None → AsksTo (s ++ more) xs None }
{}

/// What the first bytes ask comes first in any longer stream.
pub fn first_of()
    ensures { (xs ys : List Ask) (s more : List ℕ) (l k : Option (List ℕ)) → AsksTo s xs l
        → AsksTo (s ++ more) ys k → (zs : List Ask) × (ys ≡ xs ++ zs) }
{}

/// Bytes that hold a head of at most 64 header lines and 8,192 bytes, or that some bytes can make
/// one, get neither 400 nor 431 for their head.
pub fn within_limits()
    ensures { (s more : List ℕ) (h : RequestHead) (rest : List ℕ) → ReadsRequest (s ++ more) h rest
        → length h.fields ≤ line_limit → length (print_request h) ≤ head_limit
        → (¬ (IsRefused s)) × (¬ (IsTooLong s)) }
{}

/// A target matches a route exactly where it has no `?` and is one of the route's paths: a part in
/// braces stands for one or more bytes other than `/`.
pub fn route_paths()
    ensures { (route : Route) (target : List ℕ) → All (λ b. b < 256) target
        → (route_of target ≡ Some route)
        ↔ ((list_any (λ b. b == 63) target ≡ false) × IsPathOf route target) }
{}

/// The path of a question finds the question's route.
pub fn query_paths()
    ensures { (q : Query) → IsQuery q → route_of (path_of_query q) ≡ Some (route_of_query q) }
{}
