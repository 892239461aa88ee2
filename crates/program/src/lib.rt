// The program's answer: the whole text is read, the graph built and customised, and each question asked of the same lists.
#![tactic(auto)]

ghost use Rattle.std.specs.Prelude.{suc, [], ◌++◌, ◌+◌, ◌≤◌, ◌≡◌, length, OnErr};
ghost use Rattle.rules.specs.Replies.{edges, route_reply};
ghost use Rattle.rules.specs.Refusals.{passes};
ghost use Rattle.rules.specs.Calls.{build_left, build_leaves, customise_checks, customise_leaves, route_left, route_leaves};
ghost use Rattle.rules.specs.Graph.{graph};
ghost use Rattle.rules.specs.Hierarchy.{edge_costs};
ghost use Rattle.rules.specs.Lent.{lent_net, lent_graph, lent_costs};
ghost use Rattle.text.specs.Program.{answer, answer_read, reply_line, reply_lines, noughts, answer_customised, answer_built};
ghost use Rattle.reader.specs.State.{CountsWithin};
ghost use Rattle.reader.specs.ReadOn.{reading_of};
ghost use Rattle.program.specs.Answered.{answer_left, answer_leaves, answered, Limits};

use drive::route_between;
use griezmuld::{build, customise};
use lists::check_question;
pub use print::Answer;
use print::{put_edges_line, put_refused_line, put_reply};
use reader::{Counts, Lists, read_text};
use rules::{Drive, EdgeCosts, Graph, Junction, Net, Refusal};

// Route over lists that customise accepts: of its checks 11 alone is left for each question.
fn ask_route(
    net: &Net,
    rank: &[u32],
    graph: &Graph,
    costs: &EdgeCosts,
    from: Junction,
    to: Junction,
    list: &mut [u32],
) -> Result<Option<Drive>, Refusal>
    requires { customise_checks (lent_net net.now) rank.now (lent_graph graph.now) (lent_costs costs.now) ≡ passes }
    ensures { route_left list.new (route_reply result) ≡ route_leaves (lent_net net.now) rank.now (lent_graph graph.now) (lent_costs costs.now) from.0 to.0 list.old }
{
    check_question(net.order.len(), from, to)?;
    route_between(net, rank, graph, costs, from, to, list)
}

// The line of one question.
fn answer_question(
    net: &Net,
    rank: &[u32],
    graph: &Graph,
    costs: &EdgeCosts,
    from: Junction,
    to: Junction,
    page: &mut Answer,
)
    requires accepted { customise_checks (lent_net net.now) rank.now (lent_graph graph.now) (lent_costs costs.now) ≡ passes }
    requires room { (length net.now.tails.now ≤ 1024) × (length page.old + 1400 ≤ 98304) }
    ensures wrote { page.new ≡ page.old ++ reply_line from.0 to.0 (route_leaves (lent_net net.now) rank.now (lent_graph graph.now) (lent_costs costs.now) from.0 to.0 (noughts 256)) }
    ensures few { length page.new ≤ length page.old + 1400 }
{
    let mut list = [0u32; 256];
    let answer = ask_route(net, rank, graph, costs, from, to, &mut list);
    put_reply(page, from, to, answer, &list);
}

// The lines of all questions, asked one after the other of the same lists, which were checked once.
fn answer_questions(
    net: &Net,
    rank: &[u32],
    graph: &Graph,
    costs: &EdgeCosts,
    froms: &[u32],
    tos: &[u32],
    page: &mut Answer,
)
    requires accepted { customise_checks (lent_net net.now) rank.now (lent_graph graph.now) (lent_costs costs.now) ≡ passes }
    requires room { Limits net.now.tails.now froms.now tos.now × (length page.old ≤ 27) }
    ensures { page.new ≡ page.old ++ reply_lines (lent_net net.now) rank.now (lent_graph graph.now) (lent_costs costs.now) froms.now tos.now }
{
    for (from, to) in froms.iter().zip(tos) {
        answer_question(
            net,
            rank,
            graph,
            costs,
            Junction(*from),
            Junction(*to),
            page,
        );
    }
}

// The answer once the graph has been built: it is customised, and the questions follow E. A refusal writes nothing.
// That the page comes in empty stays a clause of five functions: a page is written on, so its type cannot say it.
fn answer_built(
    net: &Net,
    rank: &[u32],
    graph: &Graph,
    e: usize,
    froms: &[u32],
    tos: &[u32],
    page: &mut Answer,
) -> Result<(), Refusal>
    requires { Limits net.now.tails.now froms.now tos.now × (page.old ≡ []) }
    ensures told { answered result page.new ≡ answer_customised (lent_net net.now) (build_left rank.now (lent_graph graph.now) (edges e)) e froms.now tos.now (customise_leaves (lent_net net.now) rank.now (lent_graph graph.now) (edge_costs (noughts 4096) (noughts 4096))) }
    ensures refused { OnErr result (page.new ≡ []) }
{
    let mut up = [0u32; 4096];
    let mut down = [0u32; 4096];
    customise(
        net.tails,
        net.heads,
        net.costs,
        net.order,
        rank,
        graph.first,
        graph.heads,
        &mut up,
        &mut down,
    )?;
    put_edges_line(page, e);
    let costs = EdgeCosts {
        up: &up,
        down: &down,
    };
    answer_questions(net, rank, graph, &costs, froms, tos, page);
    Ok(())
}

// The answer to a text that keeps the rules, with rooms for the graph.
fn answer_text(
    net: &Net,
    rank: &mut [u32],
    first: &mut [u32],
    heads: &mut [u32],
    froms: &[u32],
    tos: &[u32],
    page: &mut Answer,
) -> Result<(), Refusal>
    requires { Limits net.now.tails.now froms.now tos.now × (page.old ≡ []) }
    ensures told { answered result page.new ≡ answer_built (lent_net net.now) froms.now tos.now (build_leaves net.now.tails.now net.now.heads.now net.now.order.now rank.old (graph first.old heads.old)) }
    ensures refused { OnErr result (page.new ≡ []) }
{
    let e = build(net.tails, net.heads, net.order, rank, first, heads)?;
    answer_built(net, rank, &Graph { first, heads }, e, froms, tos, page)
}

// The same with rooms of its own: n places for rank, one more for first, 4,096 for heads. They are made here, where they stand on the stack once.
fn answer_net(net: &Net, froms: &[u32], tos: &[u32], page: &mut Answer) -> Result<(), Refusal>
    requires { Limits net.now.tails.now froms.now tos.now × (length net.now.order.now ≤ 256) × (page.old ≡ []) }
    ensures told { answered result page.new ≡ answer_built (lent_net net.now) froms.now tos.now (build_leaves net.now.tails.now net.now.heads.now net.now.order.now (noughts (length net.now.order.now)) (graph (noughts (suc (length net.now.order.now))) (noughts 4096))) }
    ensures refused { OnErr result (page.new ≡ []) }
{
    let n = net.order.len();
    let mut rank = [0u32; 256];
    let mut first = [0u32; 257];
    let mut heads = [0u32; 4096];
    answer_text(
        net,
        &mut rank[..n],
        &mut first[..n + 1],
        &mut heads,
        froms,
        tos,
        page,
    )
}

// The answer to a text in the lists that it was read into.
fn answer_lists(lists: &Lists, counts: Counts, page: &mut Answer) -> Result<(), Refusal>
    requires { CountsWithin counts × (page.old ≡ []) }
    ensures told { answered result page.new ≡ answer_read (reading_of (Ok counts) lists.now) }
    ensures refused { OnErr result (page.new ≡ []) }
{
    let net = Net {
        tails: &lists.tails[..counts.arcs],
        heads: &lists.heads[..counts.arcs],
        costs: &lists.costs[..counts.arcs],
        order: &lists.order[..counts.junctions],
    };
    let froms = &lists.froms[..counts.questions];
    let tos = &lists.tos[..counts.questions];
    answer_net(&net, froms, tos, page)
}

// The answer to any bytes. A refusal writes nothing.
fn answer_input(input: &[u8], page: &mut Answer) -> Result<(), Refusal>
    requires { page.old ≡ [] }
    ensures told { answered result page.new ≡ answer input.now }
    ensures refused { OnErr result (page.new ≡ []) }
{
    let mut lists = Lists::new();
    match read_text(input, &mut lists) {
        Ok(counts) => answer_lists(&lists, counts, page),
        Err(broken) => Err(Refusal::Text(broken.line)),
    }
}

// The whole answer to any bytes, on a page that is lent, whatever stood on it: a page that is returned would be copied, and stand on the stack
// twice. Any refusal of the whole text is all that is told.
pub fn answer(input: &[u8], page: &mut Answer)
    ensures { answer_left page.new ≡ answer_leaves input.now }
{
    page.clear();
    if let Err(refusal) = answer_input(input, page) {
        put_refused_line(page, refusal.number());
    }
}
