/// Expressions: the productions of ECMA-262, 13, and the functions and classes in them, and their nearest neighbours that aren't read.
pub const EXPRESSION_TEXTS: &str = r##"# 13.1, Identifiers
script a -> a;
script $_1 -> $_1;
script größe -> größe;
script async -> async;
script await -> await;
module await -> Unread 0
commonjs await -> await;
script static -> static;
script get -> get;
script implements -> implements;
script undefined -> undefined;
script yield -> Unread 0
script let -> Unread 0
script enum -> Unread 0
script if -> Unread 0
script a\u0062 -> Unread 0
script # -> Unread 0
# 13.2, Primary Expression
script this -> ThisExpression;
script null -> null=null;
script true -> true=true;
script false -> false=false;
script 1 -> 1;
script .5 -> .5;
script 0x1F -> 0x1F;
script 1_000n -> 1_000n:bigint;
script "s" -> ExpressionStatement:s("s"=s)
script 's\'t' -> ExpressionStatement:s\'t('s\'t')
script "" -> ExpressionStatement:(""=)
script "a -> Unread 0
script (a) -> a;
script ((a)) -> a;
script () -> Unread 0
script (a,) -> Unread 0
script (...a) -> Unread 0
script (a -> Unread 0
script a) -> Unread 0
# 13.2.4, Array Initializer
script [] -> ArrayExpression([]);
script [,] -> ArrayExpression([-]);
script [,,] -> ArrayExpression([- -]);
script [a] -> ArrayExpression([a]);
script [a,] -> ArrayExpression([a]);
script [a,,] -> ArrayExpression([a -]);
script [,a] -> ArrayExpression([- a]);
script [a,,b] -> ArrayExpression([a - b]);
script [a,b] -> ArrayExpression([a b]);
script [...a] -> ArrayExpression([SpreadElement(a)]);
script [...a,] -> ArrayExpression([SpreadElement(a)]);
script [...a,,...b] -> ArrayExpression([SpreadElement(a) - SpreadElement(b)]);
script [...] -> Unread 0
script [a b] -> Unread 0
script [a -> Unread 0
script [a,b;c] -> Unread 0
script [a=b,c=>d] -> ArrayExpression([AssignmentExpression:=(a b) ArrowFunctionExpression:expression([c] d)]);
# 13.2.5, Object Initializer
script ({}) -> ObjectExpression([]);
script ({a}) -> ObjectExpression([Property:init:shorthand(a a)]);
script ({a,}) -> ObjectExpression([Property:init:shorthand(a a)]);
script ({a,b}) -> ObjectExpression([Property:init:shorthand(a a) Property:init:shorthand(b b)]);
script ({,}) -> Unread 0
script ({a,,b}) -> Unread 0
script ({a b}) -> Unread 0
script ({a:b}) -> ObjectExpression([Property:init(a b)]);
script ({"a":b}) -> ObjectExpression([Property:init("a"=a b)]);
script ({1:b}) -> ObjectExpression([Property:init(1 b)]);
script ({[a]:b}) -> ObjectExpression([Property:init:computed(a b)]);
script ({[a,b]:c}) -> Unread 0
script ({[a]}) -> Unread 0
script ({"a"}) -> Unread 0
script ({1}) -> Unread 0
script ({a:}) -> Unread 0
script ({a:b,c}) -> ObjectExpression([Property:init(a b) Property:init:shorthand(c c)]);
script ({if:a}) -> ObjectExpression([Property:init(if a)]);
script ({if}) -> Unread 0
script ({await}) -> ObjectExpression([Property:init:shorthand(await await)]);
module ({await}) -> Unread 0
script ({yield}) -> Unread 0
script ({yield:a}) -> ObjectExpression([Property:init(yield a)]);
script ({...a}) -> ObjectExpression([SpreadElement(a)]);
script ({...a,}) -> ObjectExpression([SpreadElement(a)]);
script ({...}) -> Unread 0
script ({a=1}) -> Unread 0
script ({#a:b}) -> Unread 0
script ({a(){}}) -> ObjectExpression([Property:init:method(a FunctionExpression(_ [] BlockStatement([])))]);
script ({"a"(){}}) -> ObjectExpression([Property:init:method("a"=a FunctionExpression(_ [] BlockStatement([])))]);
script ({[a](){}}) -> ObjectExpression([Property:init:method:computed(a FunctionExpression(_ [] BlockStatement([])))]);
script ({if(){}}) -> ObjectExpression([Property:init:method(if FunctionExpression(_ [] BlockStatement([])))]);
script ({get a(){}}) -> ObjectExpression([Property:get(a FunctionExpression(_ [] BlockStatement([])))]);
script ({set a(b){}}) -> ObjectExpression([Property:set(a FunctionExpression(_ [b] BlockStatement([])))]);
script ({get [a](){}}) -> ObjectExpression([Property:get:computed(a FunctionExpression(_ [] BlockStatement([])))]);
script ({get if(){}}) -> ObjectExpression([Property:get(if FunctionExpression(_ [] BlockStatement([])))]);
script ({get␊a(){}}) -> ObjectExpression([Property:get(a FunctionExpression(_ [] BlockStatement([])))]);
script ({get(){}}) -> ObjectExpression([Property:init:method(get FunctionExpression(_ [] BlockStatement([])))]);
script ({get:a}) -> ObjectExpression([Property:init(get a)]);
script ({get}) -> ObjectExpression([Property:init:shorthand(get get)]);
script ({get,set}) -> ObjectExpression([Property:init:shorthand(get get) Property:init:shorthand(set set)]);
script ({get a}) -> Unread 0
script ({get a:b}) -> Unread 0
script ({set a(b,c){}}) -> ObjectExpression([Property:set(a FunctionExpression(_ [b c] BlockStatement([])))]);
script ({async a(){}}) -> ObjectExpression([Property:init:method(a FunctionExpression:async(_ [] BlockStatement([])))]);
script ({async(){}}) -> ObjectExpression([Property:init:method(async FunctionExpression(_ [] BlockStatement([])))]);
script ({async}) -> ObjectExpression([Property:init:shorthand(async async)]);
script ({async:a}) -> ObjectExpression([Property:init(async a)]);
script ({async␊a(){}}) -> Unread 0
script ({async a}) -> Unread 0
script ({*a(){}}) -> ObjectExpression([Property:init:method(a FunctionExpression:generator(_ [] BlockStatement([])))]);
script ({*a}) -> Unread 0
script ({async*a(){}}) -> ObjectExpression([Property:init:method(a FunctionExpression:async:generator(_ [] BlockStatement([])))]);
script ({async*[a](){}}) -> ObjectExpression([Property:init:method:computed(a FunctionExpression:async:generator(_ [] BlockStatement([])))]);
script ({async get(){}}) -> ObjectExpression([Property:init:method(get FunctionExpression:async(_ [] BlockStatement([])))]);
script ({get async(){}}) -> ObjectExpression([Property:get(async FunctionExpression(_ [] BlockStatement([])))]);
script ({async get a(){}}) -> Unread 0
script ({a:function(){}}) -> ObjectExpression([Property:init(a FunctionExpression(_ [] BlockStatement([])))]);
# 13.2.7, Regular Expression Literals
script /a/ -> /a/:regex;
script /a/gi -> /a/gi:regex;
script /[/]/ -> /[/]/:regex;
script /\// -> /\//:regex;
script /=/ -> /=/:regex;
script /a -> Unread 0
script //a ->
script a/b/c -> BinaryExpression:/(BinaryExpression:/(a b) c);
script a=/b/c -> AssignmentExpression:=(a /b/c:regex);
script a␊/b/c -> BinaryExpression:/(BinaryExpression:/(a b) c);
script a␊/b/ -> Unread 0
script (a)/b/c -> BinaryExpression:/(BinaryExpression:/(a b) c);
script if(a)/b/.c -> IfStatement(a MemberExpression(/b/:regex c); _)
script {}/a/ -> BlockStatement([]) /a/:regex;
script ({})/a -> BinaryExpression:/(ObjectExpression([]) a);
script a++/b -> BinaryExpression:/(UpdateExpression:++(a) b);
script typeof/a/ -> UnaryExpression:typeof:prefix(/a/:regex);
script /a/ / /b/ -> BinaryExpression:/(/a/:regex /b/:regex);
script a=b?/c/:/d/ -> AssignmentExpression:=(a ConditionalExpression(b /c/:regex /d/:regex));
script [/a/,/b/] -> ArrayExpression([/a/:regex /b/:regex]);
# 13.2.8, Template Literals
script `` -> TemplateLiteral([``:tail] []);
script `a` -> TemplateLiteral([`a`:tail] []);
script `${a}` -> TemplateLiteral([`` ``:tail] [a]);
script `a${b}c` -> TemplateLiteral([`a` `c`:tail] [b]);
script `a${b}c${d}e` -> TemplateLiteral([`a` `c` `e`:tail] [b d]);
script `${`${a}`}` -> TemplateLiteral([`` ``:tail] [TemplateLiteral([`` ``:tail] [a])]);
script `${a,b}` -> TemplateLiteral([`` ``:tail] [SequenceExpression([a b])]);
script `${{}}` -> TemplateLiteral([`` ``:tail] [ObjectExpression([])]);
script `${{a:`}`}.a}` -> TemplateLiteral([`` ``:tail] [MemberExpression(ObjectExpression([Property:init(a TemplateLiteral([`}`:tail] []))]) a)]);
script `a␊b` -> TemplateLiteral([`a␊b`:tail] []);
script `\`${a}\${` -> TemplateLiteral([`\`` `\${`:tail] [a]);
script `${}` -> Unread 0
script `${a` -> Unread 0
script `a -> Unread 0
script `${a}b${c -> Unread 0
script `${a b}` -> Unread 0
script }` -> Unread 0
script a`b` -> TaggedTemplateExpression(a TemplateLiteral([`b`:tail] []));
script a`b``c` -> TaggedTemplateExpression(TaggedTemplateExpression(a TemplateLiteral([`b`:tail] [])) TemplateLiteral([`c`:tail] []));
script a.b`c${d}` -> TaggedTemplateExpression(MemberExpression(a b) TemplateLiteral([`c` ``:tail] [d]));
script a()`b` -> TaggedTemplateExpression(CallExpression(a []) TemplateLiteral([`b`:tail] []));
script a?.b`c` -> ChainExpression(TaggedTemplateExpression(MemberExpression:optional(a b) TemplateLiteral([`c`:tail] [])));
# 13.3, Left-Hand-Side Expressions
script a.b -> MemberExpression(a b);
script a.b.c -> MemberExpression(MemberExpression(a b) c);
script a.if -> MemberExpression(a if);
script a␊.b -> MemberExpression(a b);
script a.␊b -> MemberExpression(a b);
script a. -> Unread 0
script a.1 -> Unread 0
script a.[b] -> Unread 0
script 1..a -> MemberExpression(1. a);
script 1.a -> Unread 0
script a[b] -> MemberExpression:computed(a b);
script a[b,c] -> MemberExpression:computed(a SequenceExpression([b c]));
script a[b][c].d -> MemberExpression(MemberExpression:computed(MemberExpression:computed(a b) c) d);
script a[] -> Unread 0
script a[b -> Unread 0
script a() -> CallExpression(a []);
script a(b) -> CallExpression(a [b]);
script a(b,c) -> CallExpression(a [b c]);
script a(b,) -> CallExpression(a [b]);
script a(,) -> Unread 0
script a(b,,c) -> Unread 0
script a(b c) -> Unread 0
script a(...b) -> CallExpression(a [SpreadElement(b)]);
script a(...b,c,...d) -> CallExpression(a [SpreadElement(b) c SpreadElement(d)]);
script a(b=c,d=>e) -> CallExpression(a [AssignmentExpression:=(b c) ArrowFunctionExpression:expression([d] e)]);
script a()() -> CallExpression(CallExpression(a []) []);
script a().b[c]() -> CallExpression(MemberExpression:computed(MemberExpression(CallExpression(a []) b) c) []);
script a␊(b) -> CallExpression(a [b]);
# 13.3.9, Optional Chains
script a?.b -> ChainExpression(MemberExpression:optional(a b));
script a?.if -> ChainExpression(MemberExpression:optional(a if));
script a?.[b] -> ChainExpression(MemberExpression:computed:optional(a b));
script a?.(b) -> ChainExpression(CallExpression:optional(a [b]));
script a?.() -> ChainExpression(CallExpression:optional(a []));
script a?.b.c -> ChainExpression(MemberExpression(MemberExpression:optional(a b) c));
script a?.b[c] -> ChainExpression(MemberExpression:computed(MemberExpression:optional(a b) c));
script a?.b() -> ChainExpression(CallExpression(MemberExpression:optional(a b) []));
script a?.b?.c -> ChainExpression(MemberExpression:optional(MemberExpression:optional(a b) c));
script a.b?.c -> ChainExpression(MemberExpression:optional(MemberExpression(a b) c));
script a()?.b -> ChainExpression(MemberExpression:optional(CallExpression(a []) b));
script (a?.b).c -> MemberExpression(ChainExpression(MemberExpression:optional(a b)) c);
script (a?.b)?.c -> ChainExpression(MemberExpression:optional(ChainExpression(MemberExpression:optional(a b)) c));
script a?.b+c?.d -> BinaryExpression:+(ChainExpression(MemberExpression:optional(a b)) ChainExpression(MemberExpression:optional(c d)));
script a[b?.c] -> MemberExpression:computed(a ChainExpression(MemberExpression:optional(b c)));
script a?.[b?.c] -> ChainExpression(MemberExpression:computed:optional(a ChainExpression(MemberExpression:optional(b c))));
script a?.5:b -> ConditionalExpression(a .5 b);
script a?.b:c -> Unread 0
script a?. -> Unread 0
script a?.1 -> Unread 0
script a?..b -> Unread 0
script a?.`b` -> Unread 0
script delete a?.b -> UnaryExpression:delete:prefix(ChainExpression(MemberExpression:optional(a b)));
# 13.3.5, The `new` Operator
script new a -> NewExpression(a []);
script new a() -> NewExpression(a []);
script new a(b,...c) -> NewExpression(a [b SpreadElement(c)]);
script new a.b -> NewExpression(MemberExpression(a b) []);
script new a.b() -> NewExpression(MemberExpression(a b) []);
script new a[b]() -> NewExpression(MemberExpression:computed(a b) []);
script new a().b -> MemberExpression(NewExpression(a []) b);
script new a()() -> CallExpression(NewExpression(a []) []);
script new new a -> NewExpression(NewExpression(a []) []);
script new new a()() -> NewExpression(NewExpression(a []) []);
script new a␊() -> NewExpression(a []);
script new(a())() -> NewExpression(CallExpression(a []) []);
script new(a().b) -> NewExpression(MemberExpression(CallExpression(a []) b) []);
script new a`b` -> NewExpression(TaggedTemplateExpression(a TemplateLiteral([`b`:tail] [])) []);
script new this -> NewExpression(ThisExpression []);
script new function(){} -> NewExpression(FunctionExpression(_ [] BlockStatement([])) []);
script new class{} -> NewExpression(ClassExpression(_ _ ClassBody([])) []);
script new async() -> NewExpression(async []);
script new a?.b() -> ChainExpression(CallExpression(MemberExpression:optional(NewExpression(a []) b) []));
script new -> Unread 0
script new a() b -> Unread 0
script new -a -> Unread 0
script new a++ -> Unread 0
script new import(a) -> Unread 0
script new(import(a)) -> NewExpression(ImportExpression(a) []);
module new import.meta -> NewExpression(MetaProperty(import meta) []);
module new import.meta.a() -> NewExpression(MemberExpression(MetaProperty(import meta) a) []);
script function f(){new.target} -> FunctionDeclaration(f [] BlockStatement([MetaProperty(new target);]))
script function f(){new new.target} -> FunctionDeclaration(f [] BlockStatement([NewExpression(MetaProperty(new target) []);]))
script function f(){new.target.a()} -> FunctionDeclaration(f [] BlockStatement([CallExpression(MemberExpression(MetaProperty(new target) a) []);]))
script new.a -> Unread 0
# 13.3.7 and 13.3.10, `super`, import calls, `import.meta`
script ({a(){super.b}}) -> ObjectExpression([Property:init:method(a FunctionExpression(_ [] BlockStatement([MemberExpression(Super b);])))]);
script ({a(){super[b]}}) -> ObjectExpression([Property:init:method(a FunctionExpression(_ [] BlockStatement([MemberExpression:computed(Super b);])))]);
script ({a(){super.b()}}) -> ObjectExpression([Property:init:method(a FunctionExpression(_ [] BlockStatement([CallExpression(MemberExpression(Super b) []);])))]);
script ({a(){super}}) -> Unread 0
script ({a(){super`b`}}) -> Unread 0
script ({a(){super?.b}}) -> Unread 0
script ({a(){new super.b}}) -> ObjectExpression([Property:init:method(a FunctionExpression(_ [] BlockStatement([NewExpression(MemberExpression(Super b) []);])))]);
script ({a(){new super()}}) -> Unread 0
script class A extends B{constructor(){super(a)}} -> ClassDeclaration(A B ClassBody([MethodDefinition:constructor(constructor FunctionExpression(_ [] BlockStatement([CallExpression(Super [a]);])))]))
script import(a) -> ImportExpression(a);
script import(a).b -> MemberExpression(ImportExpression(a) b);
commonjs import("a") -> ImportExpression("a"=a);
module import("a") -> ImportExpression("a"=a);
script import() -> Unread 0
script import(a,b) -> Unread 0
script import(...a) -> Unread 0
script import a -> Unread 0
module import.meta -> MetaProperty(import meta);
module import.meta.url -> MemberExpression(MetaProperty(import meta) url);
script import.meta -> MetaProperty(import meta);
module import.a -> Unread 0
# 13.4, Update Expressions
script a++ -> UpdateExpression:++(a);
script a-- -> UpdateExpression:--(a);
script ++a -> UpdateExpression:++:prefix(a);
script --a.b -> UpdateExpression:--:prefix(MemberExpression(a b));
script a[b]++ -> UpdateExpression:++(MemberExpression:computed(a b));
script (a)++ -> UpdateExpression:++(a);
script ++((a.b)) -> UpdateExpression:++:prefix(MemberExpression(a b));
script a++␊b -> UpdateExpression:++(a); b;
script a␊++b -> a; UpdateExpression:++:prefix(b);
script a␊++␊b -> a; UpdateExpression:++:prefix(b);
script a␊++ -> Unread 2
script 1++ -> Unread 0
script ++1 -> Unread 0
script a++ ++ -> Unread 0
script ++a++ -> Unread 0
script ++ ++a -> Unread 0
script a()++ -> Unread 0
script this++ -> Unread 0
script a?.b++ -> Unread 0
script ++a?.b -> Unread 0
script (a?.b)++ -> Unread 0
script [a]++ -> Unread 0
script -a++ -> UnaryExpression:-:prefix(UpdateExpression:++(a));
script a+++b -> BinaryExpression:+(UpdateExpression:++(a) b);
script a++ + ++b -> BinaryExpression:+(UpdateExpression:++(a) UpdateExpression:++:prefix(b));
script a- --b -> BinaryExpression:-(a UpdateExpression:--:prefix(b));
# 13.5, Unary Operators
script delete a.b -> UnaryExpression:delete:prefix(MemberExpression(a b));
script void 0 -> UnaryExpression:void:prefix(0);
script typeof a -> UnaryExpression:typeof:prefix(a);
script +a -> UnaryExpression:+:prefix(a);
script -a -> UnaryExpression:-:prefix(a);
script ~a -> UnaryExpression:~:prefix(a);
script !a -> UnaryExpression:!:prefix(a);
script !!a -> UnaryExpression:!:prefix(UnaryExpression:!:prefix(a));
script - -a -> UnaryExpression:-:prefix(UnaryExpression:-:prefix(a));
script typeof typeof a -> UnaryExpression:typeof:prefix(UnaryExpression:typeof:prefix(a));
script -a.b() -> UnaryExpression:-:prefix(CallExpression(MemberExpression(a b) []));
script !a in b -> BinaryExpression:in(UnaryExpression:!:prefix(a) b);
script !␊a -> UnaryExpression:!:prefix(a);
script ! -> Unread 0
script typeof -> Unread 0
script !a=b -> Unread 0
# 15.8, `await` as an operator and as a name
script await a -> Unread 0
script await␊a -> await; a;
script await+a -> BinaryExpression:+(await a);
script await(a) -> CallExpression(await [a]);
script await[a] -> MemberExpression:computed(await a);
script await/a/b -> BinaryExpression:/(BinaryExpression:/(await a) b);
module await a -> AwaitExpression(a);
module await␊a -> AwaitExpression(a);
module await+a -> AwaitExpression(UnaryExpression:+:prefix(a));
module await/a/ -> AwaitExpression(/a/:regex);
module -await a -> UnaryExpression:-:prefix(AwaitExpression(a));
module await await a -> AwaitExpression(AwaitExpression(a));
module (await a)() -> CallExpression(AwaitExpression(a) []);
module await -> Unread 0
module a.await -> MemberExpression(a await);
module ({await:a}) -> ObjectExpression([Property:init(await a)]);
script async function f(){await a} -> FunctionDeclaration:async(f [] BlockStatement([AwaitExpression(a);]))
script async function f(){await a.b+c} -> FunctionDeclaration:async(f [] BlockStatement([BinaryExpression:+(AwaitExpression(MemberExpression(a b)) c);]))
script async function f(){await} -> Unread 0
script async function f(){function g(){await}} -> FunctionDeclaration:async(f [] BlockStatement([FunctionDeclaration(g [] BlockStatement([await;]))]))
script async function f(){function g(){await a}} -> Unread 0
script async function f(){()=>await a} -> Unread 0
script async function f(){async()=>await a} -> FunctionDeclaration:async(f [] BlockStatement([ArrowFunctionExpression:async:expression([] AwaitExpression(a));]))
script function f(){await a} -> Unread 0
module function f(){await a} -> Unread 0
module ()=>await a -> Unread 0
module async()=>await a -> ArrowFunctionExpression:async:expression([] AwaitExpression(a));
script class A{a=await} -> ClassDeclaration(A _ ClassBody([PropertyDefinition(a await)]))
module class A{a=await b} -> Unread 0
script class A{static{await}} -> ClassDeclaration(A _ ClassBody([StaticBlock([await;])]))
# 13.6, Exponentiation Operator
script a**b -> BinaryExpression:**(a b);
script a**b**c -> BinaryExpression:**(a BinaryExpression:**(b c));
script a**-b -> BinaryExpression:**(a UnaryExpression:-:prefix(b));
script ++a**b -> BinaryExpression:**(UpdateExpression:++:prefix(a) b);
script a++**b -> BinaryExpression:**(UpdateExpression:++(a) b);
script (-a)**b -> BinaryExpression:**(UnaryExpression:-:prefix(a) b);
script (a**b)**c -> BinaryExpression:**(BinaryExpression:**(a b) c);
script a*b**c -> BinaryExpression:*(a BinaryExpression:**(b c));
script a**b*c -> BinaryExpression:*(BinaryExpression:**(a b) c);
script a.b()**c -> BinaryExpression:**(CallExpression(MemberExpression(a b) []) c);
script -a**b -> Unread 0
script !a**b -> Unread 0
script typeof a**b -> Unread 0
script - -a**b -> Unread 0
module await a**b -> Unread 0
module (await a)**b -> BinaryExpression:**(AwaitExpression(a) b);
script a** -> Unread 0
# 13.7 to 13.12, binary operators, left-associative
script a*b/c%d -> BinaryExpression:%(BinaryExpression:/(BinaryExpression:*(a b) c) d);
script a+b-c -> BinaryExpression:-(BinaryExpression:+(a b) c);
script a+b*c -> BinaryExpression:+(a BinaryExpression:*(b c));
script a*b+c -> BinaryExpression:+(BinaryExpression:*(a b) c);
script (a+b)*c -> BinaryExpression:*(BinaryExpression:+(a b) c);
script a-(b-c) -> BinaryExpression:-(a BinaryExpression:-(b c));
script a<<b>>c>>>d -> BinaryExpression:>>>(BinaryExpression:>>(BinaryExpression:<<(a b) c) d);
script a+b<<c -> BinaryExpression:<<(BinaryExpression:+(a b) c);
script a<<b+c -> BinaryExpression:<<(a BinaryExpression:+(b c));
script a<b>c<=d>=e -> BinaryExpression:>=(BinaryExpression:<=(BinaryExpression:>(BinaryExpression:<(a b) c) d) e);
script a<<b<c -> BinaryExpression:<(BinaryExpression:<<(a b) c);
script a instanceof b in c -> BinaryExpression:in(BinaryExpression:instanceof(a b) c);
script a in b -> BinaryExpression:in(a b);
script a==b!=c===d!==e -> BinaryExpression:!==(BinaryExpression:===(BinaryExpression:!=(BinaryExpression:==(a b) c) d) e);
script a<b==c>d -> BinaryExpression:==(BinaryExpression:<(a b) BinaryExpression:>(c d));
script a&b&c -> BinaryExpression:&(BinaryExpression:&(a b) c);
script a==b&c -> BinaryExpression:&(BinaryExpression:==(a b) c);
script a^b^c -> BinaryExpression:^(BinaryExpression:^(a b) c);
script a&b^c -> BinaryExpression:^(BinaryExpression:&(a b) c);
script a|b|c -> BinaryExpression:|(BinaryExpression:|(a b) c);
script a^b|c|d -> BinaryExpression:|(BinaryExpression:|(BinaryExpression:^(a b) c) d);
script a+␊b -> BinaryExpression:+(a b);
script a+ -> Unread 0
script a+*b -> Unread 0
script a in -> Unread 0
script a instanceof -> Unread 0
script a=b+c=d -> Unread 0
# 13.10, a Private before `in`
script class A{#a;b(){#a in c}} -> ClassDeclaration(A _ ClassBody([PropertyDefinition(#a _) MethodDefinition:method(b FunctionExpression(_ [] BlockStatement([BinaryExpression:in(#a c);])))]))
script class A{#a;b(){#a in c in d}} -> ClassDeclaration(A _ ClassBody([PropertyDefinition(#a _) MethodDefinition:method(b FunctionExpression(_ [] BlockStatement([BinaryExpression:in(BinaryExpression:in(#a c) d);])))]))
script class A{#a;b(){#a in c+d}} -> ClassDeclaration(A _ ClassBody([PropertyDefinition(#a _) MethodDefinition:method(b FunctionExpression(_ [] BlockStatement([BinaryExpression:in(#a BinaryExpression:+(c d));])))]))
script class A{#a;b(){c&&#a in d}} -> ClassDeclaration(A _ ClassBody([PropertyDefinition(#a _) MethodDefinition:method(b FunctionExpression(_ [] BlockStatement([LogicalExpression:&&(c BinaryExpression:in(#a d));])))]))
script class A{#a;b(){#a}} -> Unread 0
script class A{#a;b(){#a+c}} -> Unread 0
script class A{#a;b(){1+#a in c}} -> Unread 0
script class A{#a;b(){#a in #a in c}} -> Unread 0
script class A{#a;b(){(#a) in c}} -> Unread 0
# 13.13, Binary Logical Operators
script a&&b&&c -> LogicalExpression:&&(LogicalExpression:&&(a b) c);
script a|b&&c -> LogicalExpression:&&(BinaryExpression:|(a b) c);
script a||b||c -> LogicalExpression:||(LogicalExpression:||(a b) c);
script a&&b||c -> LogicalExpression:||(LogicalExpression:&&(a b) c);
script a||b&&c -> LogicalExpression:||(a LogicalExpression:&&(b c));
script a??b -> LogicalExpression:??(a b);
script a??b??c -> LogicalExpression:??(LogicalExpression:??(a b) c);
script a|b??c|d -> LogicalExpression:??(BinaryExpression:|(a b) BinaryExpression:|(c d));
script (a||b)??c -> LogicalExpression:??(LogicalExpression:||(a b) c);
script (a&&b)??c -> LogicalExpression:??(LogicalExpression:&&(a b) c);
script a??(b||c) -> LogicalExpression:??(a LogicalExpression:||(b c));
script a??(b&&c) -> LogicalExpression:??(a LogicalExpression:&&(b c));
script a??b||c -> Unread 0
script a??b&&c -> Unread 0
script a||b??c -> Unread 0
script a&&b??c -> Unread 0
script a??b||(c) -> Unread 0
script (a??b)||c -> LogicalExpression:||(LogicalExpression:??(a b) c);
script a?? -> Unread 0
# 13.14, Conditional Operator
script a?b:c -> ConditionalExpression(a b c);
script a?b:c?d:e -> ConditionalExpression(a b ConditionalExpression(c d e));
script a?b?c:d:e -> ConditionalExpression(a ConditionalExpression(b c d) e);
script a?b=c:d=e -> ConditionalExpression(a AssignmentExpression:=(b c) AssignmentExpression:=(d e));
script a=b?c:d -> AssignmentExpression:=(a ConditionalExpression(b c d));
script a?(b,c):d -> ConditionalExpression(a SequenceExpression([b c]) d);
script a||b?c:d -> ConditionalExpression(LogicalExpression:||(a b) c d);
script a?b=>c:d -> ConditionalExpression(a ArrowFunctionExpression:expression([b] c) d);
script a?(b):c=>d -> ConditionalExpression(a b ArrowFunctionExpression:expression([c] d));
script a?(b)=>c:d -> ConditionalExpression(a ArrowFunctionExpression:expression([b] c) d);
script a?b in c:d -> ConditionalExpression(a BinaryExpression:in(b c) d);
script a?b,c:d -> Unread 0
script a?b -> Unread 0
script a?:b -> Unread 0
script a?b: -> Unread 0
script a?b:c=d -> ConditionalExpression(a b AssignmentExpression:=(c d));
script (a?b:c)=d -> Unread 0
# 13.15, Assignment Operators
script a=b -> AssignmentExpression:=(a b);
script a=b=c -> AssignmentExpression:=(a AssignmentExpression:=(b c));
script a+=b-=c -> AssignmentExpression:+=(a AssignmentExpression:-=(b c));
script a*=b/=c%=d -> AssignmentExpression:*=(a AssignmentExpression:/=(b AssignmentExpression:%=(c d)));
script a**=b -> AssignmentExpression:**=(a b);
script a<<=b>>=c>>>=d -> AssignmentExpression:<<=(a AssignmentExpression:>>=(b AssignmentExpression:>>>=(c d)));
script a&=b^=c|=d -> AssignmentExpression:&=(a AssignmentExpression:^=(b AssignmentExpression:|=(c d)));
script a&&=b -> AssignmentExpression:&&=(a b);
script a||=b -> AssignmentExpression:||=(a b);
script a??=b -> AssignmentExpression:??=(a b);
script a.b=c -> AssignmentExpression:=(MemberExpression(a b) c);
script a[b]=c -> AssignmentExpression:=(MemberExpression:computed(a b) c);
script a().b=c -> AssignmentExpression:=(MemberExpression(CallExpression(a []) b) c);
script (a)=b -> AssignmentExpression:=(a b);
script (a.b)=c -> AssignmentExpression:=(MemberExpression(a b) c);
script [a].b=c -> AssignmentExpression:=(MemberExpression(ArrayExpression([a]) b) c);
script ({}).a=b -> AssignmentExpression:=(MemberExpression(ObjectExpression([]) a) b);
script a=b,c=d -> SequenceExpression([AssignmentExpression:=(a b) AssignmentExpression:=(c d)]);
script a()=b -> Unread 0
script 1=a -> Unread 0
script a+b=c -> Unread 0
script this=a -> Unread 0
script a?.b=c -> Unread 0
script (a?.b)=c -> Unread 0
script a= -> Unread 0
script new a=b -> Unread 0
script (a=b)=c -> Unread 0
# 13.15.5, Destructuring Assignment
script []=a -> AssignmentExpression:=(ArrayPattern([]) a);
script [a]=b -> AssignmentExpression:=(ArrayPattern([a]) b);
script [a,b]=c -> AssignmentExpression:=(ArrayPattern([a b]) c);
script [,]=a -> AssignmentExpression:=(ArrayPattern([-]) a);
script [a,,b]=c -> AssignmentExpression:=(ArrayPattern([a - b]) c);
script [a,]=b -> AssignmentExpression:=(ArrayPattern([a]) b);
script [a=b]=c -> AssignmentExpression:=(ArrayPattern([AssignmentPattern(a b)]) c);
script [a=b=c]=d -> AssignmentExpression:=(ArrayPattern([AssignmentPattern(a AssignmentExpression:=(b c))]) d);
script [a.b,c[d]]=e -> AssignmentExpression:=(ArrayPattern([MemberExpression(a b) MemberExpression:computed(c d)]) e);
script [a().b]=c -> AssignmentExpression:=(ArrayPattern([MemberExpression(CallExpression(a []) b)]) c);
script [(a)]=b -> AssignmentExpression:=(ArrayPattern([a]) b);
script [(a.b)=c]=d -> AssignmentExpression:=(ArrayPattern([AssignmentPattern(MemberExpression(a b) c)]) d);
script [[a],{b}]=c -> AssignmentExpression:=(ArrayPattern([ArrayPattern([a]) ObjectPattern([Property:init:shorthand(b b)])]) c);
script [[a]=b]=c -> AssignmentExpression:=(ArrayPattern([AssignmentPattern(ArrayPattern([a]) b)]) c);
script [...a]=b -> AssignmentExpression:=(ArrayPattern([RestElement(a)]) b);
script [a,...b]=c -> AssignmentExpression:=(ArrayPattern([a RestElement(b)]) c);
script [...a.b]=c -> AssignmentExpression:=(ArrayPattern([RestElement(MemberExpression(a b))]) c);
script [...[a,b]]=c -> AssignmentExpression:=(ArrayPattern([RestElement(ArrayPattern([a b]))]) c);
script [...a,]=b -> Unread 0
script [...a,b]=c -> Unread 0
script [...a=b]=c -> Unread 0
script [a()]=b -> Unread 0
script [1]=a -> Unread 0
script [a+b]=c -> Unread 0
script [a?.b]=c -> Unread 0
script [([a])]=b -> Unread 0
script [[a].b]=c -> Unread 0
script [this]=a -> Unread 0
script [a]+=b -> Unread 0
script ([a])=b -> Unread 0
script [a]=[b]=c -> AssignmentExpression:=(ArrayPattern([a]) AssignmentExpression:=(ArrayPattern([b]) c));
script [a]=[b,c] -> AssignmentExpression:=(ArrayPattern([a]) ArrayExpression([b c]));
script ({}=a) -> AssignmentExpression:=(ObjectPattern([]) a);
script ({a}=b) -> AssignmentExpression:=(ObjectPattern([Property:init:shorthand(a a)]) b);
script ({a,}=b) -> AssignmentExpression:=(ObjectPattern([Property:init:shorthand(a a)]) b);
script ({a=b}=c) -> AssignmentExpression:=(ObjectPattern([Property:init:shorthand(a AssignmentPattern(a b))]) c);
script ({a:b}=c) -> AssignmentExpression:=(ObjectPattern([Property:init(a b)]) c);
script ({a:b=c}=d) -> AssignmentExpression:=(ObjectPattern([Property:init(a AssignmentPattern(b c))]) d);
script ({a:b.c}=d) -> AssignmentExpression:=(ObjectPattern([Property:init(a MemberExpression(b c))]) d);
script ({a:(b)}=c) -> AssignmentExpression:=(ObjectPattern([Property:init(a b)]) c);
script ({a:[b],c:{d}}=e) -> AssignmentExpression:=(ObjectPattern([Property:init(a ArrayPattern([b])) Property:init(c ObjectPattern([Property:init:shorthand(d d)]))]) e);
script ({"a":b}=c) -> AssignmentExpression:=(ObjectPattern([Property:init("a"=a b)]) c);
script ({1:a}=b) -> AssignmentExpression:=(ObjectPattern([Property:init(1 a)]) b);
script ({if:a}=b) -> AssignmentExpression:=(ObjectPattern([Property:init(if a)]) b);
script ({[a]:b}=c) -> AssignmentExpression:=(ObjectPattern([Property:init:computed(a b)]) c);
script ({...a}=b) -> AssignmentExpression:=(ObjectPattern([RestElement(a)]) b);
script ({a,...b}=c) -> AssignmentExpression:=(ObjectPattern([Property:init:shorthand(a a) RestElement(b)]) c);
script ({...a.b}=c) -> AssignmentExpression:=(ObjectPattern([RestElement(MemberExpression(a b))]) c);
script ({...{a}}=b) -> AssignmentExpression:=(ObjectPattern([RestElement(ObjectPattern([Property:init:shorthand(a a)]))]) b);
script ({...a,}=b) -> Unread 0
script ({...a=b}=c) -> Unread 0
script ({a:1}=b) -> Unread 0
script ({a:b()}=c) -> Unread 0
script ({a:{b}.c}=d) -> Unread 0
script ({if}=a) -> Unread 0
script ({a.b}=c) -> Unread 0
script ({a(){}}=b) -> Unread 0
script ({get a(){}}=b) -> Unread 0
script ({a})=b -> Unread 0
script ({a}+=b) -> Unread 0
script {a}=b -> Unread 3
script {}.a=b -> Unread 2
# 13.16, Comma Operator
script a,b -> SequenceExpression([a b]);
script a,b,c -> SequenceExpression([a b c]);
script (a,b),c -> SequenceExpression([SequenceExpression([a b]) c]);
script a,b=c,d -> SequenceExpression([a AssignmentExpression:=(b c) d]);
script a, -> Unread 0
script ,a -> Unread 0
script a,,b -> Unread 0"##;
